// Strips in a view that stands at column 10, row 1 of the frame.
ghost use Rattle.std.specs.Prelude.{◌≡◌};

use pixel_strips::{Canvas, ColumnStrip, Frame, SpanStrip, paint_column, paint_post, paint_span};
use std::alloc::{AllocError, Global};
use std::test::Fail;

// The texels of every strip, and of a flat that ends early.
const TEXELS: [u8; 3] = [7, 9, 11];

// Colormap 0 makes each colour one brighter; there is no colormap 1.
fn brighter(alloc: Global) -> Result<Vec<u8>, AllocError> {
    let mut colormap = Vec::new(alloc);
    for index in 0..=255u8 {
        colormap.push(index.wrapping_add(1))?;
    }
    Ok(colormap)
}

// The pixels of seven columns from `x` on of row `y` of the view, or of rows from `y` on of column `x`.
fn pixels(frame: &Frame, x: usize, y: usize, step: usize) -> [Option<u8>; 7] {
    let first = 320usize.wrapping_mul(y).wrapping_add(x).wrapping_add(330);
    [0, 1, 2, 3, 4, 5, 6].map(|n| {
        let cell = step.wrapping_mul(n).wrapping_add(first);
        frame.bytes().get(cell).copied()
    })
}

fn column<'a>(last: u16, base: u64, colormap: &'a [u8], map: u8) -> ColumnStrip<'a>
    ensures { (result.x ≡ 3) × (result.first ≡ 2) × (result.last ≡ last) × (result.base ≡ base) }
{
    ColumnStrip {
        x: 3,
        first: 2,
        last,
        fraction: 0,
        step: 0x8000,
        source: &TEXELS,
        base,
        colormap,
        map,
    }
}

#[test]
fn columns_are_painted_at_half_a_texel_a_row(rt: HostRuntime) -> Result<(), Fail> {
    let colormap = brighter(rt.alloc())?;
    let mut frame = Frame::new(rt.alloc())?;
    frame.place(10, 1);
    paint_column(&mut frame, &column(6, 0, &colormap, 0));
    let whole = [0, 8, 8, 10, 10, 12, 0].map(|colour| Some(colour));
    assert_eq!(rt; pixels(&frame, 3, 1, 320), whole);
    paint_post(&mut frame, &column(5, 2, &colormap, 1));
    let past = [0, 0, 0, 0, 0, 12, 0].map(|colour| Some(colour));
    assert_eq!(rt; pixels(&frame, 3, 1, 320), past);
    frame.clear();
    assert_eq!(rt; pixels(&frame, 3, 1, 320), [Some(0); 7]);
    Ok(())
}

#[test]
fn spans_are_painted_at_half_a_texel_a_column(rt: HostRuntime) -> Result<(), Fail> {
    let colormap = brighter(rt.alloc())?;
    let mut frame = Frame::new(rt.alloc())?;
    frame.place(10, 1);
    let span = SpanStrip {
        y: 9,
        first: 4,
        last: 8,
        x_fraction: 0x1_0000,
        y_fraction: 0,
        x_step: 0x8000,
        y_step: 0,
        flat: &TEXELS,
        colormap: &colormap,
        map: 0,
    };
    paint_span(&mut frame, &span);
    let colours = [0, 10, 10, 12, 12, 1, 0].map(|colour| Some(colour));
    assert_eq!(rt; pixels(&frame, 3, 9, 1), colours);
    Ok(())
}
