//! Sprites, masked mid textures and weapons.
//!
//! Rules only: records and constants, and in `specs/` the projection of things (Projection), the
//! vissprites of a view and their order (Entries, Order), what the masked pass needs of drawn
//! fragments (Drawsegs), how far a sprite is seen and when a masked column is drawn (Clips), and
//! the pixels of sprites, masked mid textures and weapons (Sprites, Middles, Weapons). An entry
//! is the field's vissprite, a `mid` its texturemid. The original: r_things.c.

/// The most vissprites of a view. The original: `MAXVISSPRITES`, r_things.h.
pub const MAX_VISSPRITES: u32 = 128;

/// The least depth at which a thing is seen, map units 16.16. The original: `MINZ`, r_things.c.
pub const MIN_DEPTH: i32 = 4 << 16;

/// A thing is seen up to `1 << SIDE_SHIFT` times as far to the side as ahead.
pub const SIDE_SHIFT: u32 = 2;

/// The bits of an angle below a rotation, an eighth of a turn.
pub const ROTATION_SHIFT: u32 = 29;

/// What is added to the angle between a thing and the look at it: a half turn and the half of an
/// eighth (BAM). The original: `(ANG45 / 2) * 9`, r_things.c.
pub const ROTATION_TURN: u32 = 0x9000_0000;

/// The column that stands in the middle of a weapon's screen, 16.16.
pub const WEAPON_CENTRE: i32 = 160 << 16;

/// The row that stands in the middle of a weapon's screen, 16.16. The original: `BASEYCENTER`,
/// r_things.c.
pub const WEAPON_MID: i32 = 100 << 16;

/// A thing as the view sees it: place in map units 16.16, angle (BAM), light number 0 to 15.
///
/// The original: `mobj_t`, p_mobj.h, with spritelights.
#[derive(Clone, Copy)]
pub struct Placed {
    pub x: i32,
    pub y: i32,
    pub z: i32,
    pub angle: u32,
    pub bright: bool,
    pub light: u8,
}

/// A picture of a sprite: its lump, whether it is flipped, its width and offsets in texels.
///
/// The original: `spriteframe_t`, spritewidth, spriteoffset and spritetopoffset, r_data.c.
#[derive(Clone, Copy)]
pub struct Shape5 {
    pub lump: u16,
    pub flip: bool,
    pub width: u16,
    pub left: i16,
    pub top: i16,
}

/// A thing in front of the viewpoint: scale (16.16, pixels a map unit), place across the view
/// (map units 16.16, to the right), and rotation 0 to 7.
#[derive(Clone, Copy, Debug, PartialEq, Eq)]
pub struct Seen {
    pub scale: i32,
    pub side: i32,
    pub rotation: u8,
}

/// A vissprite: its number in order of making, its columns, and how it is drawn.
///
/// Columns `first` to `last` lie in the view, none where first is past last; `a1` is the column of
/// the picture's left edge. `x`, `y`, `gz` and `gzt` are map units 16.16, the feet and the top;
/// `mid` is a texel row, `scale` in pixels a map unit and `iscale` in texels a pixel, all 16.16;
/// `map` is a colormap. The original: `vissprite_t`, r_defs.h.
#[derive(Clone, Copy, Debug, PartialEq, Eq)]
pub struct SpriteEntry {
    pub number: u16,
    pub first: i32,
    pub last: i32,
    pub a1: i32,
    pub x: i32,
    pub y: i32,
    pub gz: i32,
    pub gzt: i32,
    pub mid: i32,
    pub scale: i32,
    pub iscale: i32,
    pub flip: bool,
    pub width: u16,
    pub lump: u16,
    pub map: u8,
}
