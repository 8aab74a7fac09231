//! A brush that makes live what a strip is painted from, and paints it on a canvas.
//!
//! Rules: `specs/Works`.

use crate::brush::{Brush, FloorStrip, MiddleStrip, PictureStrip};
use crate::floors::paint_floor;
use crate::layers::paint_picture;
use crate::middles::paint_middle;
use art_rules::Shelf;
use pixel_strips::Canvas;
use texture_build::{CacheFault, Hands, LumpCache, TextureArt, TextureStrip, paint_texture};

/// Paints on a canvas with textures and with lumps of a directory, which a cache reads by its shelf:
/// `art` is what it paints with.
#[derive(Drop)]
pub struct LiveBrush<'t, 'a, S: Shelf, C: Canvas> {
    pub art: TextureArt<'t>,
    pub cache: &'a mut LumpCache,
    pub shelf: &'a mut S,
    pub canvas: &'a mut C,
}

impl<'t, 'a, S: Shelf, C: Canvas> Brush for LiveBrush<'t, 'a, S, C> {
    ghost use Rattle.std.specs.Prelude.{Ok, Err};
    ghost use Rattle.brush.specs.Works.{BrushValue, CanTake, HasWorked, brush_now};

    ghost Start = { BrushValue };

    ghost stands = { λ p start strips. HasWorked C.mark start (brush_now S.view C.view p) strips
        (Ok tt) };

    ghost stopped = { λ p start strips stop. HasWorked C.mark start (brush_now S.view C.view p)
        strips (Err stop) };

    ghost takes = { λ p strip. CanTake (brush_now S.view C.view p) strip };

    type Stop = CacheFault;

    #[inline(always)]
    fn texture(&mut self, strip: &TextureStrip) -> Result<(), CacheFault> {
        let mut hands = Hands {
            cache: &mut *self.cache,
            shelf: &mut *self.shelf,
            canvas: &mut *self.canvas,
        };
        paint_texture(&self.art, &mut hands, strip)
    }

    fn floor(&mut self, strip: &FloorStrip<'_>) -> Result<(), CacheFault> {
        let mut hands = Hands {
            cache: &mut *self.cache,
            shelf: &mut *self.shelf,
            canvas: &mut *self.canvas,
        };
        paint_floor(&self.art, &mut hands, strip)
    }

    fn middle(&mut self, strip: &MiddleStrip) -> Result<(), CacheFault> {
        let mut hands = Hands {
            cache: &mut *self.cache,
            shelf: &mut *self.shelf,
            canvas: &mut *self.canvas,
        };
        paint_middle(&self.art, &mut hands, strip)
    }

    fn picture(&mut self, strip: &PictureStrip<'_>) -> Result<(), CacheFault> {
        paint_picture(
            self.art.dir,
            self.art.colormap,
            self.cache,
            self.shelf,
            self.canvas,
            strip,
        )
    }
}
