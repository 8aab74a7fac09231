//! A brush that leaves nothing.

use crate::brush::{Brush, FloorStrip, MiddleStrip, PictureStrip};
use std::convert::Infallible;
use texture_build::TextureStrip;

/// Leaves nothing, and never stops: for what counts or lists a view and does not draw it.
#[derive(Clone, Copy)]
pub struct DryBrush;

impl Brush for DryBrush {
    ghost stands = { λ p start strips. Unit {0} };

    ghost stopped = { λ p start strips stop. Unit {0} };

    ghost takes = { λ p strip. Unit {0} };

    type Stop = Infallible;

    #[inline(always)]
    fn texture(&mut self, _: &TextureStrip) -> Result<(), Infallible> {
        Ok(())
    }

    #[inline(always)]
    fn floor(&mut self, _: &FloorStrip<'_>) -> Result<(), Infallible> {
        Ok(())
    }

    #[inline(always)]
    fn middle(&mut self, _: &MiddleStrip) -> Result<(), Infallible> {
        Ok(())
    }

    #[inline(always)]
    fn picture(&mut self, _: &PictureStrip<'_>) -> Result<(), Infallible> {
        Ok(())
    }
}
