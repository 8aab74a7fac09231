// The pixels of a plane, by spans that open and close from column to column.
ghost use Rattle.std.specs.Prelude.{◌≡◌, ℕ, ◌+◌, ◌-◌, ◌<◌, ◌≤◌, true, false, length, slice_index};
ghost use Rattle.visplanes.specs.Rules.{Art, FRAME_HEIGHT, FRAME_WIDTH, Flat4, PLANE, is_sky_key, lump_source, painter_of, plane_dots};
ghost use Rattle.pixel_strips.specs.Canvases.{with_painter, with_dots};
ghost use Rattle.visplanes.specs.Planes.{plane_at, flat_lump};
ghost use Rattle.visplanes.specs.Spans.{is_in, closed_rows, closed_dots, AreOpen, IsSeen, HasSpans, GivesFlat};

use crate::columns::Visplane;
use crate::floor::Floor;
use crate::keys::flat_lump;
use crate::planes::{PlaneNo, Planes};
use crate::rows::{NO_ROWS, Rows, rows_of};
use picture_rules::{FRAME_HEIGHT, Flat4, LUMP, PLANE, Painter};
use pixel_strips::Canvas;
use view_frame::View;

/// Paints a plane that is not sky: each pixel that its runs hold, once, by the fractions of the
/// first column of its span.
///
/// `flat` has the bytes of the plane's flat, 64 by 64 texels, `colormap` those of the lump of
/// colormaps; a byte past the end is 0. The painter is the plane with its number, its source the
/// flat's lump. Takes no memory.
///
/// The original: `R_DrawPlanes`, `R_MakeSpans` and `R_MapPlane`, r_plane.c.
pub fn draw_plane<C: Canvas>(
    planes: &Planes,
    plane: PlaneNo,
    view: &View<'_>,
    flat: &[u8],
    colormap: &[u8],
    canvas: &mut C,
)
    requires plane { plane.0 < length planes.now.planes }
    requires floor { is_sky_key (plane_at planes.now.planes plane.0).key ≡ false }
    requires seen { IsSeen view.now.shape (C.view canvas.old).left (C.view canvas.old).top
        (plane_at planes.now.planes plane.0) }
    ensures { (art : Art) (sky : ℕ) →
        GivesFlat art (flat_lump (plane_at planes.now.planes plane.0).key.flat) flat.now
        colormap.now →
        C.view canvas.new ≡ with_dots C.mark
        (plane_dots view.now art sky plane.0 (plane_at planes.now.planes plane.0))
        (with_painter (painter_of PLANE plane.0
        (lump_source (flat_lump (plane_at planes.now.planes plane.0).key.flat)))
        (C.view canvas.old)) }
{
    let visplane = planes.visplane(plane);
    let key = visplane.key();
    canvas.begin(painter_of(plane, key.flat));
    let floor = Floor::new(view, key, flat, colormap);
    let mut starts = [0; FRAME_HEIGHT as usize];
    draw_columns(visplane, &floor, &mut starts, canvas);
}

// Who paints the plane.
#[tactic(auto, unfolding(picture_rules::specs::Words::lump_source, picture_rules::specs::Words::painter_of))]
fn painter_of(plane: PlaneNo, flat: Flat4) -> Painter
    ensures { result ≡ painter_of PLANE plane.0 (lump_source (flat_lump flat)) }
{
    Painter {
        kind: PLANE,
        number: plane.0,
        source_kind: LUMP,
        source: flat_lump(flat),
    }
}

// Paints the spans of a plane, column by column; `starts` has room for the first column of the span
// that is open in each row.
fn draw_columns<C: Canvas>(
    plane: &Visplane,
    floor: &Floor<'_, '_>,
    starts: &mut [u16],
    canvas: &mut C,
)
    requires room { length starts.old ≡ FRAME_HEIGHT }
    requires seen { IsSeen floor.now.view.shape (C.view canvas.old).left (C.view canvas.old).top
        plane.now }
    ensures { HasSpans C.mark floor.now plane.now (λ y. FRAME_WIDTH) (C.view canvas.old)
        (C.view canvas.new) }
{
    let (first, last) = plane.marked();
    let mut before = NO_ROWS;
    for x in first..last + 2 {
        let now = rows_of(plane.column(x));
        change_rows(floor, starts, before, now, x, canvas);
        before = now;
    }
}

// Goes on to column `x`: ends the spans of the rows that it has not, and begins those of the rows
// that the column before has not. Most columns have the same rows.
#[inline(always)]
fn change_rows<C: Canvas>(
    floor: &Floor<'_, '_>,
    starts: &mut [u16],
    before: Rows,
    now: Rows,
    x: u16,
    canvas: &mut C,
)
    requires room { length starts.old ≡ FRAME_HEIGHT }
    requires now { now.end ≤ FRAME_HEIGHT }
    requires spans { AreOpen floor.now starts.old before x (C.view canvas.old) }
    ensures room { length starts.new ≡ FRAME_HEIGHT }
    ensures closed { C.view canvas.new ≡ with_dots C.mark
        (closed_dots floor.now (C.view canvas.old).painter (slice_index starts.old) before now x)
        (C.view canvas.old) }
    ensures kept { (y : ℕ) → is_in before y ≡ true →
        slice_index starts.new y ≡ slice_index starts.old y }
    ensures opened { (y : ℕ) → is_in now y ≡ true → is_in before y ≡ false →
        slice_index starts.new y ≡ x }
{
    if before.begin == now.begin && before.end == now.end {
        return;
    }
    close_rows(floor, starts, before, now, x, canvas);
    open_rows(starts, before, now, x);
}

// Ends the spans of the rows of the column before that are not among those of column `x`.
fn close_rows<C: Canvas>(
    floor: &Floor<'_, '_>,
    starts: &[u16],
    before: Rows,
    now: Rows,
    x: u16,
    canvas: &mut C,
)
    requires spans { AreOpen floor.now starts.now before x (C.view canvas.old) }
    ensures { C.view canvas.new ≡ with_dots C.mark
        (closed_dots floor.now (C.view canvas.old).painter (slice_index starts.now) before now x)
        (C.view canvas.old) }
{
    let above = Rows {
        begin: before.begin,
        end: before.end.min(now.begin),
    };
    let below = Rows {
        begin: before.begin.max(now.end),
        end: before.end,
    };
    paint_rows(floor, starts, above, x, canvas);
    paint_rows(floor, starts, below, x, canvas);
}

// Paints the spans of these rows, each to the column before `x`. Often there is none.
#[inline(always)]
fn paint_rows<C: Canvas>(floor: &Floor<'_, '_>, starts: &[u16], rows: Rows, x: u16, canvas: &mut C)
    requires spans { AreOpen floor.now starts.now rows x (C.view canvas.old) }
    ensures { C.view canvas.new ≡ with_dots C.mark
        (closed_rows floor.now (C.view canvas.old).painter (slice_index starts.now) x rows.begin
        (rows.end - rows.begin)) (C.view canvas.old) }
{
    if rows.begin < rows.end {
        paint_spans(floor, starts, rows, x, canvas);
    }
}

// Paints the spans of these rows, of which there is one at least, each to the column before `x`.
fn paint_spans<C: Canvas>(floor: &Floor<'_, '_>, starts: &[u16], rows: Rows, x: u16, canvas: &mut C)
    requires spans { AreOpen floor.now starts.now rows x (C.view canvas.old) }
    ensures { C.view canvas.new ≡ with_dots C.mark
        (closed_rows floor.now (C.view canvas.old).painter (slice_index starts.now) x rows.begin
        (rows.end - rows.begin)) (C.view canvas.old) }
{
    for y in rows.begin..rows.end {
        floor.paint_row(canvas, y, starts[y as usize], x - 1);
    }
}

// Begins a span at column `x` in each of its rows that the column before does not have.
fn open_rows(starts: &mut [u16], before: Rows, now: Rows, x: u16)
    requires room { now.end ≤ length starts.old }
    ensures kept { (y : ℕ) → is_in before y ≡ true →
        slice_index starts.new y ≡ slice_index starts.old y }
    ensures opened { (y : ℕ) → is_in now y ≡ true → is_in before y ≡ false →
        slice_index starts.new y ≡ x }
{
    set_starts(starts, now.begin, now.end.min(before.begin), x);
    set_starts(starts, now.begin.max(before.end), now.end, x);
}

// Lets the spans of the rows from `begin` on, before `end`, begin at column `x`.
fn set_starts(starts: &mut [u16], begin: u16, end: u16, x: u16)
    requires { end ≤ length starts.old }
    ensures set { (y : ℕ) → begin ≤ y → y < end → slice_index starts.new y ≡ x }
    ensures below { (y : ℕ) → y < begin → slice_index starts.new y ≡ slice_index starts.old y }
    ensures above { (y : ℕ) → end ≤ y → slice_index starts.new y ≡ slice_index starts.old y }
{
    for y in begin..end {
        starts[y as usize] = x;
    }
}
