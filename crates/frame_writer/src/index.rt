// A frame as it is, without its palette.
ghost use Rattle.std.specs.Prelude.{◌≡◌, length};
ghost use Rattle.art_rules.specs.Words.{Writes};

use crate::FRAME_BYTES;
use art_rules::{Failed, Sink};

/// Appends a frame's bytes to the output, in one put.
///
/// `frame` has a palette index for each pixel, row by row from the top. Takes no memory.
///
/// Errors: `Failed` only where the output's count of faults rose; then a prefix was appended.
///
/// This project's own: a file of indices without a header.
pub fn put_index<K: Sink>(sink: &mut K, frame: &[u8]) -> Result<(), Failed>
    requires { length frame.now ≡ FRAME_BYTES }
    ensures { Writes (K.written sink.old) (K.written sink.new)
        (K.faults sink.old) (K.faults sink.new) frame.now result }
{
    sink.put(frame)
}
