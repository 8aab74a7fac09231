// The tables of a view of a size: filled by `from_bytes`, read in constant time.

ghost use Rattle.std.specs.Prelude.{◌≡◌, ◌+◌, ◌<◌, ◌≤◌, pos, Some, None, IfOk};
ghost use Rattle.angle_tables.specs.Rules.{COSINE_START, DISTANCE_STEPS, Full, IsSound, IsWithinFrame, LIGHT_LEVELS, MAX_SIZE, MIN_SIZE, SCALE_STEPS, SINES, SLOPE_ANGLES, TANGENTS, TablesRefusal, angle_at, angle_of_column, angles_in, angles_refusal, clip_angle, column_of_angle, cosine_at, dist_scale, distance_light, scale_light, shape_of_size, sine_at, tables_refusal, tangent_at, y_slope};

use crate::columns::{angles_of_columns, columns_of_angles, scales_of_columns, slopes_of_rows};
use crate::lights::{distance_lights, scale_lights};
use crate::lists::AngleLists;
use crate::refusals::{TablesFault, angles_refusal};
use crate::shapes::shape_of_size;
use std::alloc::{AllocError, Global};
use std::marker::Model;
use view_rules::{DISTANCE_STEPS, SCALE_STEPS, Spans, TABLES_BYTES, TablesRefusal, ViewShape};

/// The tables of angles, what views of one size derive from them, and how their spans are stepped.
pub struct Tables {
    lists: AngleLists,
    size: u8,
    spans: Spans,
    shape: ViewShape,
    columns: Vec<u16>,
    angles_from_right: Vec<u32>,
    rows: Vec<i32>,
    scales: Vec<i32>,
    scale_lights: Vec<u8>,
    distance_lights: Vec<u8>,
}

// By hand, so that a drop of one is one call.
impl Drop for Tables {
    fn drop(self) {
        let Tables {
            lists: _,
            size: _,
            spans: _,
            shape: _,
            columns: _,
            angles_from_right: _,
            rows: _,
            scales: _,
            scale_lights: _,
            distance_lights: _,
        } = self;
    }
}

impl Model for Tables {
    ghost use Rattle.view_rules.specs.View.{TablesValue};

    ghost Value = { TablesValue };

    ghost use Rattle.angle_tables.specs.Inner.{value_of, IsDerived};

    ghost view = { value_of };

    ghost invariant = { IsDerived };
}

impl Tables {
    /// The tables in a file of 65540 bytes, for views of `size`, 3 to 11, whose spans are full.
    ///
    /// Linear in the bytes and the view's width. Takes the memory of all tables.
    ///
    /// Errors: `Refused` with the first thing that is wrong with the file; `OutOfMemory`.
    ///
    /// The original: tables.c and `R_Init`, r_main.c. This project's own: the file and its
    /// refusals.
    #[tactic(auto, unfolding(view_rules::specs::Refusals::tables_refusal))]
    pub fn from_bytes(alloc: Global, bytes: &[u8], size: u8) -> Result<Tables, TablesFault>
        requires least { MIN_SIZE ≤ size }
        requires greatest { size ≤ MAX_SIZE }
        ensures ok { IfOk result (λ t. (tables_refusal bytes.now size ≡ None) ×
            (t ≡ record { angles = angles_in bytes.now; size = size; spans = Full })) }
        ensures refused { (r : TablesRefusal) → result ≡ Err (TablesFault.Refused r) →
            tables_refusal bytes.now size ≡ Some r }
    {
        if bytes.len() != TABLES_BYTES {
            let found = bytes.len() as u64;
            return Err(TablesFault::Refused(TablesRefusal::Length { found }));
        }
        let Ok(lists) = AngleLists::read(alloc, bytes) else {
            return Err(TablesFault::OutOfMemory);
        };
        let shape = shape_of_size(size);
        if let Some(refusal) = angles_refusal(&lists, shape) {
            return Err(TablesFault::Refused(refusal));
        }
        match Tables::derive(alloc, lists, size, shape) {
            Ok(tables) => Ok(tables),
            Err(_) => Err(TablesFault::OutOfMemory),
        }
    }

    /// The tables with what views of a size derive from them.
    fn derive(
        alloc: Global,
        lists: AngleLists,
        size: u8,
        shape: ViewShape,
    ) -> Result<Tables, AllocError>
        requires least { MIN_SIZE ≤ size }
        requires greatest { size ≤ MAX_SIZE }
        requires shaped { shape ≡ shape_of_size size }
        requires accepted { angles_refusal lists shape ≡ None }
        ensures { IfOk result (λ t. t ≡ record { angles = lists; size = size; spans = Full }) }
    {
        let columns = columns_of_angles(alloc, &lists, shape)?;
        let angles_from_right = angles_of_columns(alloc, &lists, shape)?;
        let rows = slopes_of_rows(alloc, shape)?;
        let scales = scales_of_columns(alloc, &lists, shape, &angles_from_right)?;
        let scale_lights = scale_lights(alloc, shape)?;
        let distance_lights = distance_lights(alloc)?;
        Ok(Tables {
            lists,
            size,
            spans: Spans::Full,
            shape,
            columns,
            angles_from_right,
            rows,
            scales,
            scale_lights,
            distance_lights,
        })
    }

    /// The size of the views, 3 to 11.
    pub fn size(&self) -> u8
        ensures value { result ≡ self.now.size }
        ensures least { MIN_SIZE ≤ result }
        ensures greatest { result ≤ MAX_SIZE }
    {
        self.size
    }

    /// How spans are stepped.
    pub fn spans(&self) -> Spans
        ensures { result ≡ self.now.spans }
    {
        self.spans
    }

    /// Steps spans so from now on. All else stays.
    ///
    /// The original: `spanfunc`, which `R_ExecuteSetViewSize` sets, r_main.c.
    pub fn set_spans(&mut self, spans: Spans)
        ensures { self.new ≡ record self.old { spans = spans } }
    {
        self.spans = spans;
    }

    /// The shape of the views.
    ///
    /// The original: `viewwidth`, `viewheight` and their kin, r_main.c and r_draw.c.
    pub fn shape(&self) -> ViewShape
        ensures value { result ≡ shape_of_size self.now.size }
        ensures frame { IsWithinFrame result }
        ensures sound { IsSound self.now.angles result }
    {
        self.shape
    }

    /// The sine, 16.16, of fine angle `i`, 0 to 10239.
    ///
    /// The original: `finesine`, tables.c.
    pub fn sine(&self, i: usize) -> i32
        requires { i < SINES }
        ensures { result ≡ sine_at self.now.angles i }
    {
        self.lists.sine(i)
    }

    /// The cosine, 16.16, of fine angle `i`, 0 to 8191.
    ///
    /// The original: `finecosine`, tables.c.
    pub fn cosine(&self, i: usize) -> i32
        requires { i + COSINE_START < SINES }
        ensures { result ≡ cosine_at self.now.angles i }
    {
        self.lists.cosine(i)
    }

    /// The tangent, 16.16, of fine angle `i`, 0 to 4095, counted from a quarter turn right.
    ///
    /// The original: `finetangent`, tables.c.
    pub fn tangent(&self, i: usize) -> i32
        requires { i < TANGENTS }
        ensures { result ≡ tangent_at self.now.angles i }
    {
        self.lists.tangent(i)
    }

    /// The angle (BAM) of a slope of `i` steps, 0 to 2048.
    ///
    /// The original: `tantoangle`, tables.c.
    pub fn angle(&self, i: usize) -> u32
        requires { i < SLOPE_ANGLES }
        ensures { result ≡ angle_at self.now.angles i }
    {
        self.lists.angle(i)
    }

    /// The column, 0 to the width, at which fine angle `i` is seen, counted from a quarter turn
    /// right of the view's angle.
    ///
    /// The original: `viewangletox`, r_main.c.
    pub fn column_of_angle(&self, i: usize) -> i32
        requires { i < TANGENTS }
        ensures { result ≡ pos (column_of_angle self.now.angles (shape_of_size self.now.size) i) }
    {
        self.columns[i] as i32
    }

    /// The angle (BAM) at which column `x`, 0 to the width, looks, from the view's own.
    ///
    /// The original: `xtoviewangle`, r_main.c.
    pub fn angle_of_column(&self, x: usize) -> u32
        requires { x ≤ (shape_of_size self.now.size).width }
        ensures { result ≡ angle_of_column self.now.angles (shape_of_size self.now.size) x }
    {
        self.angles_from_right[self.shape.width as usize - x]
    }

    /// The angle (BAM) of the view's left edge, from the view's own.
    ///
    /// The original: `clipangle`, r_main.c.
    #[tactic(auto, unfolding(view_rules::specs::Tables::clip_angle))]
    pub fn clip_angle(&self) -> u32
        ensures value { result ≡ clip_angle self.now.angles (shape_of_size self.now.size) }
        ensures sound { IsSound self.now.angles (shape_of_size self.now.size) }
    {
        self.angles_from_right[self.shape.width as usize]
    }

    /// The distance factor, 16.16, of row `y`, below the height.
    ///
    /// The original: `yslope`, r_plane.c.
    pub fn y_slope(&self, y: usize) -> i32
        requires { y < (shape_of_size self.now.size).height }
        ensures { result ≡ y_slope (shape_of_size self.now.size) y }
    {
        self.rows[y]
    }

    /// The distance factor, 16.16, of column `x`, below the width.
    ///
    /// The original: `distscale`, r_plane.c.
    pub fn dist_scale(&self, x: usize) -> i32
        requires { x < (shape_of_size self.now.size).width }
        ensures { result ≡ dist_scale self.now.angles (shape_of_size self.now.size) x }
    {
        self.scales[x]
    }

    /// The colormap of light `i`, 0 to 15, at scale step `j`, 0 to 47.
    ///
    /// The original: `scalelight`, r_main.c.
    pub fn light_scale(&self, i: usize, j: usize) -> u8
        requires light { i < LIGHT_LEVELS }
        requires step { j < SCALE_STEPS }
        ensures { result ≡ scale_light (shape_of_size self.now.size) i j }
    {
        self.scale_lights[i * SCALE_STEPS + j]
    }

    /// The colormap of light `i`, 0 to 15, at distance step `j`, 0 to 127.
    ///
    /// The original: `zlight`, r_main.c.
    pub fn light_z(&self, i: usize, j: usize) -> u8
        requires light { i < LIGHT_LEVELS }
        requires step { j < DISTANCE_STEPS }
        ensures { result ≡ distance_light i j }
    {
        self.distance_lights[i * DISTANCE_STEPS + j]
    }
}
