// The columns of a picture: rules `picture_rules/sprite`, Sprites; `texture_build`, Arts.
ghost use Rattle.brush.specs.Rules.{half_at, picture_column};
ghost use Rattle.brush.specs.Posts.{HasClipsIn, IsColumnInFrame, PaintsPosts};
ghost use Rattle.std.specs.Prelude.{◌≡◌, ◌^◌, ◌≤ℤ◌, ◌<ℤ◌, ◌&&◌, pos, true, int_le, int_lt};
ghost use Rattle.texture_build.specs.Arts.{own_posts};

use crate::posts::{ColumnArt, PostLook, paint_posts};
use art_rules::half_at;
use patch_columns::column_place;
use picture_rules::{FRACTION_BITS, MaskedColumn, ViewShape};
use pixel_strips::Canvas;
use view_frame::{fixed, minus, shr_word, times};

/// Paints column `own` of a picture in column `x` of the view, within the clips of `column`; nothing
/// where the picture has no such column. Takes no memory.
///
/// The original: `R_DrawMaskedColumn`, r_things.c, which reads what memory holds there.
pub fn paint_own<C: Canvas>(
    canvas: &mut C,
    shape: ViewShape,
    x: u16,
    column: &MaskedColumn,
    art: &ColumnArt<'_>,
    own: i32,
)
    requires column { IsColumnInFrame (C.view canvas.old) shape x }
    requires clips { HasClipsIn shape.height column.now }
    ensures { PaintsPosts C.mark shape x column.now art.now (own_posts art.now.bytes.now own)
        (C.view canvas.old) (C.view canvas.new) }
{
    if is_in_picture(art.bytes, own) {
        let place = column_place(art.bytes, column_of(own));
        let look = PostLook {
            shape,
            x,
            column: *column,
        };
        paint_posts(canvas, &look, art, place);
    }
}

/// The column of that number.
pub fn column_of(x: i32) -> u16
    requires least { pos 0 ≤ℤ x }
    requires greatest { x <ℤ pos (2 ^ 16) }
    ensures { x ≡ pos result }
{
    x as u16
}

// Whether a picture has that column.
fn is_in_picture(bytes: &[u8], own: i32) -> bool
    ensures value { result ≡ (int_le (pos 0) own && int_lt own (pos (half_at bytes.now 0))) }
    ensures least { result ≡ true → pos 0 ≤ℤ own }
    ensures greatest { result ≡ true → own <ℤ pos (2 ^ 16) }
{
    0 <= own && own < i32::from(half_at(bytes, 0))
}

/// The column of a picture of `width` texels that is seen at column `x` of the view, where the
/// picture's left edge is at column `a1` and a column has `iscale` texels (16.16). It may be one
/// that the picture has not.
///
/// The original: `R_DrawVisSprite`, r_things.c, where it steps `frac`.
#[tactic(auto, unfolding(picture_rules::specs::sprite::Sprites::picture_column, picture_rules::specs::sprite::Sprites::column_fraction, picture_rules::specs::sprite::Sprites::texels_across))]
pub fn picture_column(flip: bool, width: u16, a1: i32, iscale: i32, x: u16) -> i32
    ensures { result ≡ picture_column flip width a1 iscale x }
{
    let across = times(minus(x as i32, a1), iscale);
    if flip {
        let right = minus(fixed(width as i32), 1);
        return shr_word(minus(right, across), FRACTION_BITS);
    }
    shr_word(across, FRACTION_BITS)
}
