// The line that is noted for a status, which goes out in one put. No call takes memory.
ghost use Rattle.std.specs.Prelude.{◌≡◌, ◌≤◌, codes, length};
ghost use Rattle.art_rules.specs.Words.{Writes};
ghost use Rattle.job_files.specs.Lines.{line_of, limit_label, refusal_line, pair_line};

use crate::status::Status;
use art_rules::{Failed, Sink};
use picture_rules::LimitKind;
use refusals::{Line, Refusal, add_refusal};

/// Appends the line of a status, and nothing for `Done`. Takes no memory.
///
/// A refusal's line is `doomview: refused`, its code and the numbers that it has, in decimal.
///
/// Errors: `Failed` only where the count of faults of `notes` rose; then a prefix was appended.
///
/// This project's own: the lines and the codes.
pub fn put_note<N: Sink>(notes: &mut N, status: &Status) -> Result<(), Failed>
    ensures { Writes (N.written notes.old) (N.written notes.new)
        (N.faults notes.old) (N.faults notes.new) (line_of status.now) result }
{
    match *status {
        Status::Done => Ok(()),
        Status::Usage => notes.put(b"doomview: usage\n"),
        Status::Refused(refusal) => put_refusal(notes, refusal),
        Status::ReadFault => notes.put(b"doomview: read fault\n"),
        Status::WriteFault => notes.put(b"doomview: write fault\n"),
        Status::Limit { view, kind, count } => put_limit(notes, view, kind, count),
        Status::ZoneFull { wanted, widest } => put_zone_full(notes, wanted, widest),
        Status::OutOfMemory => notes.put(b"doomview: out of memory\n"),
    }
}

fn put_limit<N: Sink>(notes: &mut N, view: u32, kind: LimitKind, count: u32) -> Result<(), Failed>
    ensures { Writes (N.written notes.old) (N.written notes.new)
        (N.faults notes.old) (N.faults notes.new)
        (pair_line (codes "doomview: limit view ") view (limit_label kind) count) result }
{
    let mut line = Line::new();
    line.add_number(b"doomview: limit view ", view as u64);
    line.add_number(limit_label(kind), count as u64);
    line.add(b"\n");
    line.put(notes)
}

fn put_zone_full<N: Sink>(notes: &mut N, wanted: u64, widest: u64) -> Result<(), Failed>
    ensures { Writes (N.written notes.old) (N.written notes.new)
        (N.faults notes.old) (N.faults notes.new)
        (pair_line (codes "doomview: zone full wanted ") wanted (codes " widest ") widest) result }
{
    let mut line = Line::new();
    line.add_number(b"doomview: zone full wanted ", wanted);
    line.add_number(b" widest ", widest);
    line.add(b"\n");
    line.put(notes)
}

fn put_refusal<N: Sink>(notes: &mut N, refusal: Refusal) -> Result<(), Failed>
    ensures { Writes (N.written notes.old) (N.written notes.new)
        (N.faults notes.old) (N.faults notes.new) (refusal_line refusal) result }
{
    let mut line = Line::new();
    line.add(b"doomview: refused");
    add_refusal(&mut line, refusal);
    line.add(b"\n");
    line.put(notes)
}

/// What a limit counts, as a line names it.
///
/// This project's own: the lines.
pub fn limit_label(kind: LimitKind) -> &'static [u8]
    ensures label { result.now ≡ limit_label kind }
    ensures length { length result.now ≤ 10 }
{
    match kind {
        LimitKind::Planes => b" planes ",
        LimitKind::Openings => b" openings ",
    }
}
