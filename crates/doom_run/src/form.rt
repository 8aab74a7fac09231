// How each view of a path goes out.
use job_rules::Format;

// What is written of each view: its frame in a format, or its trace.
#[derive(Clone, Copy)]
pub enum ViewForm {
    Frame(Format),
    Trace,
}
