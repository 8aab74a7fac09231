// The job `render`: the frames of the views of a path, each written as it is drawn.
ghost use Rattle.doom_run.specs.Ends.{IsEnd, RendersAt};
ghost use Rattle.doom_run.specs.Frames.{ViewEnds, form_of, status_of_view};
ghost use Rattle.doom_run.specs.Jobs.{drawing, rendered};
ghost use Rattle.doom_run.specs.Performs.{Delivers};
ghost use Rattle.doom_run.specs.Renders.{DrawsAt, FitDue, FitsAt, HoldsReady, IsDrawable, RendersReady, ready_bytes, ready_views};
ghost use Rattle.doom_run.specs.Views.{limits_of_settings};
ghost use Rattle.doom_run.specs.Rules.{AreSettings, level_job_value};
ghost use Rattle.level_audit.specs.scene_load.Calls.{IsLoadedScene};
ghost use Rattle.std.specs.Prelude.{◌≡◌, ◌<◌, ℕ, List, length, slice_get, Some, IfOk};

use crate::canvas::ViewCanvas;
use crate::form::ViewForm;
use crate::layers::draw_layered;
use art_rules::{Shelf, Sink};
use csv_tables::PathTable;
use frame_core::{Limits, ViewFault, Workshop};
use job_files::Status;
use job_rules::{LevelJob, Settings};
use level_audit::LoadedScene;
use picture_rules::Eye;
use std::alloc::{AllocError, Global};

// A scene that is ready to be drawn, with all the memory of drawing.
pub struct ReadyViews {
    pub loaded: LoadedScene,
    pub shop: Workshop,
}

// By hand, so that a drop of one is one call.
impl Drop for ReadyViews {
    fn drop(self) {
        let ReadyViews { loaded: _, shop: _ } = self;
    }
}

// A loaded scene with the memory to draw it, which is all that a job then takes.
pub fn prepare_views(
    alloc: Global,
    settings: &Settings,
    loaded: LoadedScene,
) -> Result<ReadyViews, AllocError>
    requires { AreSettings settings.now }
    ensures loaded { IfOk result (λ ready. ready.loaded ≡ loaded) }
    ensures limits { IfOk result (λ ready. ready.shop.limits ≡ limits_of_settings settings.now) }
{
    let limits = Limits {
        planes: settings.planes,
        openings: settings.openings,
    };
    match Workshop::new(alloc, limits) {
        Ok(shop) => Ok(ReadyViews { loaded, shop }),
        Err(fault) => Err(fault),
    }
}

// How many views a path has.
pub(crate) fn view_count(path: &PathTable) -> u32
    ensures { result ≡ length path.now }
{
    path.views().len() as u32
}

// The viewpoint of view number `number`, which is there.
pub(crate) fn eye_at(path: &PathTable, number: u32) -> Eye
    requires { number < length path.now }
    ensures { slice_get path.now number ≡ Some result }
{
    path.views()[number as usize]
}

// The status of a fault of a view.
fn status_of_view(view: u32, fault: ViewFault) -> Status
    ensures { result ≡ status_of_view view fault }
{
    match fault {
        ViewFault::Limit { kind, count } => Status::Limit { view, kind, count },
        ViewFault::ZoneFull { wanted, widest } => Status::ZoneFull { wanted, widest },
        ViewFault::ReadFault => Status::ReadFault,
    }
}

// Draws view number `number` and its layers on a canvas, which is cleared before.
fn draw_at<S: Shelf>(
    ready: &mut ReadyViews,
    number: u32,
    shelf: &mut S,
    canvas: &mut ViewCanvas,
) -> Result<(), ViewFault>
    requires drawable { IsDrawable ready.old.loaded }
    requires there { number < length ready.old.loaded.files.path }
    ensures draws { DrawsAt number (S.view shelf.old) (S.view shelf.new) ready.old ready.new
        canvas.new result }
    ensures form { form_of canvas.new ≡ form_of canvas.old }
{
    let eye = eye_at(&ready.loaded.files.path, number);
    let loaded = &mut ready.loaded;
    let shop = &mut ready.shop;
    match canvas {
        ViewCanvas::Index(frame) => {
            frame.clear();
            draw_layered(loaded, shop, number, eye, shelf, frame)
        }
        ViewCanvas::Ppm(frame) => {
            frame.clear();
            draw_layered(loaded, shop, number, eye, shelf, frame)
        }
        ViewCanvas::Trace(frame) => {
            frame.clear();
            draw_layered(loaded, shop, number, eye, shelf, frame)
        }
    }
}

// Draws view number `number` and writes it.
fn render_view<S: Shelf, K: Sink>(
    ready: &mut ReadyViews,
    number: u32,
    canvas: &mut ViewCanvas,
    shelf: &mut S,
    out: &mut K,
) -> Status
    requires drawable { IsDrawable ready.old.loaded }
    requires there { number < length ready.old.loaded.files.path }
    ensures ends { (contents : List (List ℕ)) (count : ℕ) → HoldsReady (S.view shelf.old) ready.old
        contents count → ViewEnds (S.view shelf.old).steady (form_of canvas.old) (ready_views
        (ready_bytes contents ready.old) ready.old) number (K.written out.old) (K.written out.new)
        result }
    ensures fits { (contents : List (List ℕ)) (count : ℕ) → HoldsReady (S.view shelf.old) ready.old
        contents count → result ≡ Status.Done →
        FitsAt (ready_bytes contents ready.old) count ready.old number }
    ensures renders { RendersReady (S.view shelf.old) (S.view shelf.new) ready.old ready.new
        (K.faults out.old) (K.faults out.new) result }
    ensures form { form_of canvas.new ≡ form_of canvas.old }
{
    match draw_at(ready, number, shelf, canvas) {
        Ok(()) => {}
        Err(fault) => return status_of_view(number, fault),
    }
    match canvas.put(out, ready.loaded.scene.palette()) {
        Ok(()) => Status::Done,
        Err(_) => Status::WriteFault,
    }
}

// Draws and writes the views one after the other, up to the first that is over a limit. Takes no
// memory.
pub fn deliver_render<S: Shelf, K: Sink>(
    ready: &mut ReadyViews,
    canvas: &mut ViewCanvas,
    shelf: &mut S,
    out: &mut K,
) -> Status
    requires { IsDrawable ready.old.loaded }
    ensures ends { (contents : List (List ℕ)) (count : ℕ) → HoldsReady (S.view shelf.old) ready.old
        contents count → RendersAt (S.view shelf.old).steady (rendered (form_of canvas.old)
        (ready_views (ready_bytes contents ready.old) ready.old)) (K.written out.old) (K.written
        out.new) result }
    ensures fits { (contents : List (List ℕ)) (count : ℕ) → HoldsReady (S.view shelf.old) ready.old
        contents count → IsEnd result → FitDue (ready_bytes contents ready.old) count ready.old }
    ensures renders { RendersReady (S.view shelf.old) (S.view shelf.new) ready.old ready.new
        (K.faults out.old) (K.faults out.new) result }
{
    let count = view_count(&ready.loaded.files.path);
    for number in 0..count {
        match render_view(ready, number, canvas, shelf, out) {
            Status::Done => {}
            status => return status,
        }
    }
    Status::Done
}

// The jobs `render` and `trace` over a level that is loaded: the frames or the traces of the views
// of a path.
pub fn perform_views<S: Shelf, K: Sink>(
    alloc: Global,
    form: ViewForm,
    level: &LevelJob<'_>,
    loaded: LoadedScene,
    shelf: &mut S,
    out: &mut K,
) -> Status
    requires settings { AreSettings level.now.settings }
    requires loaded { IsLoadedScene (level_job_value level.now) loaded }
    ensures { Delivers (level_job_value level.now) (drawing (level_job_value level.now) (rendered
        form)) (S.view shelf.old) (S.view shelf.new) loaded (K.written out.old) (K.written out.new)
        (K.faults out.old) (K.faults out.new) result }
{
    match prepare_views(alloc, &level.settings, loaded) {
        Ok(mut ready) => match ViewCanvas::new(alloc, form) {
            Ok(mut canvas) => deliver_render(&mut ready, &mut canvas, shelf, out),
            Err(_) => Status::OutOfMemory,
        },
        Err(_) => Status::OutOfMemory,
    }
}
