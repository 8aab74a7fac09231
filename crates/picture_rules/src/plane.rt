//! Visplanes: areas of floor and ceiling, each a run of rows in some columns.
//!
//! Rules only: records and constants, and in `specs/` the keys of planes (Keys), the planes of a
//! view and how they are found, checked and marked (Planes), what the events of a view make of
//! them (Built), the spans of a row (Spans), and the pixels of floors and skies (Floors, Skies).
//! A plane is the field's visplane, a span's first column its spanstart. The original: r_plane.c.

/// The most planes to which an option may raise that limit.
///
/// This project's own.
pub const MOST_VISPLANES: u32 = 1024;

/// The bits of an angle below a column of the sky's texture. The original: `ANGLETOSKYSHIFT`,
/// r_sky.h.
pub const SKY_SHIFT: u32 = 22;

/// The texel row of the sky at the view's centre row, 16.16. The original: skytexturemid, r_sky.c.
pub const SKY_MID: i32 = 100 << 16;

/// The colormap of the sky, whatever the light of the view.
pub const SKY_MAP: u8 = 0;

/// The flat of a plane: the sky, or a flat's lump number.
#[derive(Clone, Copy)]
pub enum Flat4 {
    Sky,
    Lump(u16),
}

/// What planes are told apart by.
///
/// `height` is in map units, 16.16 fixed point; `light` is the sector's, 0 to 255. All sky has
/// height 0 and light 0. The original: `visplane_t`, r_defs.h.
#[derive(Clone, Copy)]
pub struct PlaneKey {
    pub height: i32,
    pub flat: Flat4,
    pub light: i16,
}
