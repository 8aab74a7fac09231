// A frame of palette indices.
ghost use Rattle.std.specs.Prelude.{◌≡◌, ◌+◌, ◌<◌, ◌≤◌, ◌*◌, ℕ, ℤ, length, replicate, IfOk};
ghost use Rattle.pixel_strips.specs.Rules.{FRAME_CELLS, FRAME_WIDTH, MAP_COLOURS, TEXEL_ROWS, step_at};
ghost use Rattle.pixel_strips.specs.declared.texels.TheConstants.{FLAT_BYTES};
ghost use Rattle.pixel_strips.specs.Canvases.{CanvasView, blank, marked_by_colour};
ghost use Rattle.pixel_strips.specs.Fills.{ColumnFilled, ColumnFills, SpanFilled, SpanFills};
ghost use Rattle.pixel_strips.specs.Places.{IsTexelPlace, IsFirstPlace, IsSpanPlace};

use crate::canvas::{Canvas, CutColumn, CutSpan};
use crate::places::{first_place, flat_place_at, place_after, places_after, row_at, texel_place};
use pixel_rules::{FRAME_CELLS, Painter};
use std::alloc::{AllocError, Global};
use std::marker::Model;
use view_rules::FRAME_WIDTH;

/// A frame of 320 by 200 palette indices, row by row from the top: a canvas whose mark is the
/// colour.
#[derive(Drop)]
pub struct Frame {
    cells: Vec<u8>,
    painter: Painter,
    left: u16,
    top: u16,
}

impl Model for Frame {
    ghost use Rattle.std.specs.Prelude.{◌≡◌, length};
    ghost use Rattle.pixel_rules.specs.declared.TheConstants.{FRAME_CELLS};
    ghost use Rattle.pixel_strips.specs.Canvases.{CanvasView};

    ghost Value = { CanvasView };

    ghost view = { λ frame. record {
      cells = frame.cells.items;
      painter = frame.painter;
      left = frame.left;
      top = frame.top;
    } };

    ghost invariant = { λ frame. length frame.cells.items ≡ FRAME_CELLS };
}

impl Frame {
    /// A frame of 64,000 bytes, each 0, that no painter has begun, with the view at its left top.
    ///
    /// Errors: `OutOfMemory`. Nothing else takes memory.
    pub fn new(alloc: Global) -> Result<Frame, AllocError>
        ensures { IfOk result (λ frame. frame ≡ blank) }
    {
        Ok(Frame {
            cells: zeros(alloc, FRAME_CELLS)?,
            painter: Painter {
                kind: 0,
                number: 0,
                source_kind: 0,
                source: 0,
            },
            left: 0,
            top: 0,
        })
    }

    /// The 64,000 bytes.
    pub fn bytes(&self) -> &[u8]
        ensures cells { result.now ≡ self.now.cells }
        ensures size { length result.now ≡ FRAME_CELLS }
    {
        &self.cells
    }

    /// Sets each byte to 0. The painter and the place stay.
    pub fn clear(&mut self)
        ensures { self.new ≡ record self.old { cells = replicate FRAME_CELLS 0 } }
    {
        self.cells.fill(0);
    }
}

// `count` bytes, each 0.
fn zeros(alloc: Global, count: usize) -> Result<Vec<u8>, AllocError>
    ensures { IfOk result (λ bytes. bytes.items ≡ replicate count 0) }
{
    vec![in alloc; 0; count]
}

impl Canvas for Frame {
    ghost view = { λ frame. frame };

    ghost mark = { marked_by_colour };

    fn begin(&mut self, painter: Painter) {
        self.painter = painter;
    }

    fn place(&mut self, left: u16, top: u16) {
        self.left = left;
        self.top = top;
    }

    fn dot(&mut self, x: u16, y: u16, colour: u8) {
        let row = y as usize + self.top as usize;
        let column = x as usize + self.left as usize;
        self.cells[FRAME_WIDTH as usize * row + column] = colour;
    }

    #[inline(always)]
    fn column(&mut self, x: u16, first: u16, last: u16, cut: &CutColumn<'_>) {
        let row = first as usize + self.top as usize;
        let column = x as usize + self.left as usize;
        let start = FRAME_WIDTH as usize * row + column;
        let count = (last - first) as usize + 1;
        let (texels, shades) = (cut.texels, cut.shades);
        let cells = &mut self.cells;
        fill_column(cells, start, count, texels, shades, cut.fraction, cut.step);
    }

    fn span(&mut self, y: u16, first: u16, last: u16, cut: &CutSpan<'_>) {
        let row = y as usize + self.top as usize;
        let column = first as usize + self.left as usize;
        let start = FRAME_WIDTH as usize * row + column;
        fill_span(&mut self.cells, start, (last - first) as usize + 1, cut);
    }
}

// Sets `count` cells below one another, the first at `start`. Four or more are set four a round.
// The last four are set once more or for the first time, so that no second loop ends where nobody
// can foretell it. What is cut out is given part by part, in registers, and no write to a cell can
// change it. Not inlined, so that the loops are the same in every caller.
#[inline(never)]
fn fill_column(
    cells: &mut [u8],
    start: usize,
    count: usize,
    texels: &[u8],
    shades: &[u8],
    fraction: i32,
    step: i32,
)
    requires size { length cells.old ≡ FRAME_CELLS }
    requires within { start + FRAME_WIDTH * count < FRAME_CELLS + FRAME_WIDTH }
    requires texels { length texels.now ≡ TEXEL_ROWS }
    requires shades { length shades.now ≡ MAP_COLOURS }
    ensures { ColumnFilled texels.now shades.now fraction step start count cells.old cells.new }
{
    let cut = CutColumn {
        texels,
        shades,
        fraction,
        step,
    };
    if count < 4 {
        fill_few(cells, start, count, &cut);
        return;
    }
    let width = FRAME_WIDTH as usize;
    let step = texel_place(cut.step);
    let first = texel_place(cut.fraction);
    let mut place = first;
    for k in 0..(count - 1) / 4 {
        fill_four(cells, start + 4 * width * k, place, step, &cut);
        place = places_after(place, step, 4);
    }
    let done = count - 4;
    let last = places_after(first, step, done as u32);
    fill_four(cells, start + width * done, last, step, &cut);
}

// Sets few cells below one another, one by one.
#[inline(always)]
fn fill_few(cells: &mut [u8], start: usize, count: usize, cut: &CutColumn<'_>)
    requires size { length cells.old ≡ FRAME_CELLS }
    requires within { start + FRAME_WIDTH * count < FRAME_CELLS + FRAME_WIDTH }
    requires texels { length cut.now.texels.now ≡ TEXEL_ROWS }
    requires shades { length cut.now.shades.now ≡ MAP_COLOURS }
    ensures { ColumnFilled cut.now.texels.now cut.now.shades.now cut.now.fraction cut.now.step
        start count cells.old cells.new }
{
    let step = texel_place(cut.step);
    let mut place = texel_place(cut.fraction);
    for k in 0..count {
        fill_row(cells, start + FRAME_WIDTH as usize * k, place, cut);
        place = places_after(place, step, 1);
    }
}

// Sets four cells below one another, of which some may be set already: row `n` of a column and the
// three below. Four places are reckoned from one, so that none waits for another.
#[inline(always)]
fn fill_four(cells: &mut [u8], cell: usize, place: u32, step: u32, cut: &CutColumn<'_>)
    requires size { length cells.old ≡ FRAME_CELLS }
    requires within { cell + 3 * FRAME_WIDTH < FRAME_CELLS }
    requires texels { length cut.now.texels.now ≡ TEXEL_ROWS }
    requires shades { length cut.now.shades.now ≡ MAP_COLOURS }
    ensures { (fraction : ℤ) (start n : ℕ) → cell ≡ start + FRAME_WIDTH * n →
        IsTexelPlace cut.now.step step → IsTexelPlace (step_at fraction cut.now.step n) place →
        ColumnFills cut.now fraction start n 4 cells.old cells.new }
{
    let width = FRAME_WIDTH as usize;
    fill_row(cells, cell, place, cut);
    fill_row(cells, cell + width, places_after(place, step, 1), cut);
    fill_row(cells, cell + 2 * width, places_after(place, step, 2), cut);
    fill_row(cells, cell + 3 * width, places_after(place, step, 3), cut);
}

// Sets the cell of row `n` of a column, which may be set already.
#[inline(always)]
fn fill_row(cells: &mut [u8], cell: usize, place: u32, cut: &CutColumn<'_>)
    requires size { length cells.old ≡ FRAME_CELLS }
    requires within { cell < FRAME_CELLS }
    requires texels { length cut.now.texels.now ≡ TEXEL_ROWS }
    requires shades { length cut.now.shades.now ≡ MAP_COLOURS }
    ensures { (fraction : ℤ) (start n : ℕ) → cell ≡ start + FRAME_WIDTH * n →
        IsTexelPlace (step_at fraction cut.now.step n) place →
        ColumnFills cut.now fraction start n 1 cells.old cells.new }
{
    cells[cell] = cut.shades[cut.texels[row_at(place)] as usize];
}

// Sets `count` cells side by side, the first at `start`. Four or more are set four a round, and the
// last four likewise. `cut` is copied: behind each write to a cell its fields would be read again.
// Not inlined either.
#[inline(never)]
fn fill_span(cells: &mut [u8], start: usize, count: usize, cut: &CutSpan<'_>)
    requires size { length cells.old ≡ FRAME_CELLS }
    requires within { start + count ≤ FRAME_CELLS }
    requires few { count ≤ FRAME_WIDTH }
    requires texels { length cut.now.texels.now ≡ FLAT_BYTES }
    requires shades { length cut.now.shades.now ≡ MAP_COLOURS }
    ensures { SpanFilled cut.now.spans cut.now.texels.now cut.now.shades.now cut.now.x_fraction
        cut.now.y_fraction cut.now.x_step cut.now.y_step start count cells.old cells.new }
{
    let cut = *cut;
    if count < 4 {
        fill_few_across(cells, start, count, &cut);
        return;
    }
    let step = first_place(cut.spans, cut.x_step, cut.y_step);
    let first = first_place(cut.spans, cut.x_fraction, cut.y_fraction);
    let mut place = first;
    for k in 0..(count - 1) / 4 {
        fill_four_across(cells, start + 4 * k, place, step, &cut);
        place = place_after(place, step, 4);
    }
    let done = count - 4;
    let last = place_after(first, step, done as u64);
    fill_four_across(cells, start + done, last, step, &cut);
}

// Sets few cells side by side, one by one.
#[inline(always)]
fn fill_few_across(cells: &mut [u8], start: usize, count: usize, cut: &CutSpan<'_>)
    requires size { length cells.old ≡ FRAME_CELLS }
    requires within { start + count ≤ FRAME_CELLS }
    requires few { count ≤ FRAME_WIDTH }
    requires texels { length cut.now.texels.now ≡ FLAT_BYTES }
    requires shades { length cut.now.shades.now ≡ MAP_COLOURS }
    ensures { SpanFilled cut.now.spans cut.now.texels.now cut.now.shades.now cut.now.x_fraction
        cut.now.y_fraction cut.now.x_step cut.now.y_step start count cells.old cells.new }
{
    let step = first_place(cut.spans, cut.x_step, cut.y_step);
    let mut place = first_place(cut.spans, cut.x_fraction, cut.y_fraction);
    for k in 0..count {
        fill_one(cells, start + k, place, cut);
        place = place_after(place, step, 1);
    }
}

// Sets four cells side by side, of which some may be set already: column `n` of a span and the three
// to the right.
#[inline(always)]
fn fill_four_across(cells: &mut [u8], cell: usize, place: u64, step: u64, cut: &CutSpan<'_>)
    requires size { length cells.old ≡ FRAME_CELLS }
    requires within { cell + 3 < FRAME_CELLS }
    requires texels { length cut.now.texels.now ≡ FLAT_BYTES }
    requires shades { length cut.now.shades.now ≡ MAP_COLOURS }
    ensures { (x y : ℤ) (start n : ℕ) → n + 3 < FRAME_WIDTH → cell ≡ start + n →
        IsFirstPlace cut.now.spans cut.now.x_step cut.now.y_step step →
        IsSpanPlace cut.now.spans x y cut.now.x_step cut.now.y_step n place →
        SpanFills cut.now x y start n 4 cells.old cells.new }
{
    fill_one(cells, cell, place, cut);
    fill_one(cells, cell + 1, place_after(place, step, 1), cut);
    fill_one(cells, cell + 2, place_after(place, step, 2), cut);
    fill_one(cells, cell + 3, place_after(place, step, 3), cut);
}

// Sets the cell of column `n` of a span, which may be set already.
#[inline(always)]
fn fill_one(cells: &mut [u8], cell: usize, place: u64, cut: &CutSpan<'_>)
    requires size { length cells.old ≡ FRAME_CELLS }
    requires within { cell < FRAME_CELLS }
    requires texels { length cut.now.texels.now ≡ FLAT_BYTES }
    requires shades { length cut.now.shades.now ≡ MAP_COLOURS }
    ensures { (x y : ℤ) (start n : ℕ) → n < FRAME_WIDTH → cell ≡ start + n →
        IsSpanPlace cut.now.spans x y cut.now.x_step cut.now.y_step n place →
        SpanFills cut.now x y start n 1 cells.old cells.new }
{
    cells[cell] = cut.shades[cut.texels[flat_place_at(place)] as usize];
}
