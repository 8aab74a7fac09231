// What the views of a path are drawn on, and how each of them goes out.
//
// Rules: specs, Frames (`canvas_bytes`) and Views (`view_bytes`).
ghost use Rattle.doom_run.specs.Frames.{canvas_bytes, form_of};
ghost use Rattle.frame_writer.specs.declared.TheConstants.{PALETTE_BYTES};
ghost use Rattle.art_rules.specs.Words.{Writes};
ghost use Rattle.std.specs.Prelude.{◌≡◌, length, IfOk};

use crate::form::ViewForm;
use art_rules::{Failed, Sink};
use frame_writer::{put_index, put_ppm};
use job_rules::Format;
use pixel_strips::Frame;
use pixel_trace::{TraceFrame, put_trace};
use std::alloc::{AllocError, Global};

// A canvas for views in one form.
#[derive(Drop)]
pub enum ViewCanvas {
    Index(Frame),
    Ppm(Frame),
    Trace(TraceFrame),
}

impl ViewCanvas {
    // A canvas for views in that form. Takes all its memory.
    pub fn new(alloc: Global, form: ViewForm) -> Result<ViewCanvas, AllocError>
        ensures { IfOk result (λ canvas. form_of canvas ≡ form) }
    {
        match form {
            ViewForm::Frame(Format::Index) => Ok(ViewCanvas::Index(Frame::new(alloc)?)),
            ViewForm::Frame(Format::Ppm) => Ok(ViewCanvas::Ppm(Frame::new(alloc)?)),
            ViewForm::Trace => Ok(ViewCanvas::Trace(TraceFrame::new(alloc)?)),
        }
    }

    // Writes what was drawn.
    pub fn put<K: Sink>(&self, out: &mut K, palette: &[u8]) -> Result<(), Failed>
        requires { length palette.now ≡ PALETTE_BYTES }
        ensures { Writes (K.written out.old) (K.written out.new) (K.faults out.old)
            (K.faults out.new) (canvas_bytes palette.now self.now) result }
    {
        match self {
            ViewCanvas::Index(frame) => put_index(out, frame.bytes()),
            ViewCanvas::Ppm(frame) => put_ppm(out, frame.bytes(), palette),
            ViewCanvas::Trace(frame) => put_trace(out, frame),
        }
    }
}
