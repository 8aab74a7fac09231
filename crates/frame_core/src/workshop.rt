// All the memory of drawing.
ghost use Rattle.std.specs.Borrow.{Lends, sem};
ghost use Rattle.std.specs.Prelude.{◌≡◌, ◌≤◌, length, IfOk};
ghost use Rattle.frame_core.specs.contracts.workshop.Workshop.{the_row};
ghost use Rattle.frame_core.specs.Rules.{FRAME_CELLS, MOST_OPENINGS, MOST_VISPLANES};
ghost use Rattle.pixel_strips.specs.Canvases.{blank};
ghost use Rattle.pixel_strips.specs.contracts.frame.Frame.{the_row as frame_row};

use crate::bench::Bench;
use picture_rules::Limits;
use pixel_strips::Frame;
use std::alloc::{AllocError, Global};
use std::marker::Model;

/// All the memory of drawing, with a frame. Contracts see its limits and its frame.
///
/// The original: the arrays of r_bsp.c, r_plane.c and r_things.c.
pub struct Workshop {
    pub(crate) bench: Bench,
    pub(crate) marks: Vec<bool>,
    pub(crate) frame: Frame,
}

// By hand, so that a drop of one is one call.
impl Drop for Workshop {
    fn drop(self) {
        let Workshop {
            bench: _,
            marks: _,
            frame: _,
        } = self;
    }
}

impl Model for Workshop {
    ghost use Rattle.std.specs.Prelude.{◌≤◌, length};
    ghost use Rattle.frame_core.specs.Painters.{limits_in};
    ghost use Rattle.frame_core.specs.Workshops.{WorkshopView};

    ghost Value = { WorkshopView };

    ghost view = { λ w. record { limits = limits_in w.bench; frame = w.frame } };

    ghost invariant = { λ w. w.bench.walls.room ≤ length w.marks.items };
}

impl Workshop {
    /// Takes all the memory of drawing, for at most 1024 planes and 245760 openings.
    ///
    /// Errors: `AllocError`, out of memory.
    ///
    /// This project's own: the limits.
    pub fn new(alloc: Global, limits: Limits) -> Result<Workshop, AllocError>
        requires planes { limits.planes ≤ MOST_VISPLANES }
        requires openings { limits.openings ≤ MOST_OPENINGS }
        ensures { IfOk result (λ shop. shop ≡ record { limits = limits; frame = blank }) }
    {
        Ok(Workshop {
            bench: Bench::new(alloc, limits)?,
            marks: unset_marks(alloc, limits.openings as usize)?,
            frame: Frame::new(alloc)?,
        })
    }

    /// The 64,000 bytes of the frame, row by row from the top.
    pub fn frame(&self) -> &[u8]
        ensures cells { result.now ≡ self.now.frame.cells }
        ensures size { length result.now ≡ FRAME_CELLS }
    {
        self.frame.bytes()
    }

    /// Lends the frame as a canvas, so that more can be painted on what `draw_view` drew. The limits
    /// stay.
    ///
    /// This project's own.
    pub fn canvas(&mut self) -> &mut Frame
        ensures now { result.now ≡ self.old.frame }
        ensures* lends { sem 𝓛 (Lends the_row frame_row self.entry result
            (λ frame. record self.old { frame = frame })) }
    {
        &mut self.frame
    }
}

// So many marks.
fn unset_marks(alloc: Global, count: usize) -> Result<Vec<bool>, AllocError>
    ensures { IfOk result (λ marks. length marks.items ≡ count) }
{
    vec![in alloc; false; count]
}
