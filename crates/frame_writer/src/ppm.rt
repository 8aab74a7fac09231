// A frame as a PPM file.
ghost use Rattle.std.specs.Prelude.{◌≡◌, ◌+◌, ◌*◌, ℕ, length, take};
ghost use Rattle.std.specs.List.{flat_map};
ghost use Rattle.art_rules.specs.Words.{Writes};
ghost use Rattle.frame_writer.specs.Ppm.{ppm, colour};
ghost use Rattle.frame_writer.specs.Words.{word_colour};

use crate::{COLOUR_BYTES, FRAME_BYTES, HEADER_BYTES, PALETTE_BYTES};
use art_rules::{Failed, Sink};

// P6, the width, the height and the greatest value of a colour.
const HEADER: &[u8; HEADER_BYTES] = b"P6\n320 200\n255\n";

// A frame goes out in five bands of 40 rows.
const BANDS: usize = 5;

const BAND_BYTES: usize = 12800;

// A colour's red, green and blue, and a byte that does not count.
const WORD_BYTES: usize = 4;

const COLOURS: usize = 256;

const _: () = prove!(BANDS * BAND_BYTES == FRAME_BYTES);

/// Appends a frame to the output as a PPM file: a header of 15 bytes, then red, green and blue of
/// each pixel.
///
/// `frame` has a palette index for each pixel, row by row from the top; `playpal` is one palette,
/// 256 colours of three bytes. Takes no memory.
///
/// Errors: `Failed` only where the output's count of faults rose; then a prefix was appended.
///
/// This project's own: the original writes no such file.
pub fn put_ppm<K: Sink>(sink: &mut K, frame: &[u8], playpal: &[u8]) -> Result<(), Failed>
    requires frame { length frame.now ≡ FRAME_BYTES }
    requires palette { length playpal.now ≡ PALETTE_BYTES }
    ensures { Writes (K.written sink.old) (K.written sink.new)
        (K.faults sink.old) (K.faults sink.new) (ppm frame.now playpal.now) result }
{
    let words = words_of(playpal);
    sink.put(HEADER)?;
    put_bands(sink, frame, &words)
}

fn put_bands<K: Sink>(sink: &mut K, frame: &[u8], words: &[u8]) -> Result<(), Failed>
    requires frame { length frame.now ≡ FRAME_BYTES }
    requires words { length words.now ≡ WORD_BYTES * COLOURS }
    ensures { Writes (K.written sink.old) (K.written sink.new)
        (K.faults sink.old) (K.faults sink.new)
        (flat_map (word_colour words.now) frame.now) result }
{
    for band in 0..BANDS {
        let start = BAND_BYTES * band;
        put_band(sink, &frame[start..start + BAND_BYTES], words)?;
    }
    Ok(())
}

fn put_band<K: Sink>(sink: &mut K, band: &[u8], words: &[u8]) -> Result<(), Failed>
    requires band { length band.now ≡ BAND_BYTES }
    requires words { length words.now ≡ WORD_BYTES * COLOURS }
    ensures { Writes (K.written sink.old) (K.written sink.new)
        (K.faults sink.old) (K.faults sink.new) (flat_map (word_colour words.now) band.now) result }
{
    let mut colours = [0; COLOUR_BYTES * BAND_BYTES + 1];
    fill(&mut colours, band, words);
    sink.put(&colours[..COLOUR_BYTES * BAND_BYTES])
}

// The colours of a band of indices: each word is written whole, and its last byte is overwritten by
// the next one.
fn fill(colours: &mut [u8], band: &[u8], words: &[u8])
    requires room { length colours.old ≡ COLOUR_BYTES * length band.now + 1 }
    requires words { length words.now ≡ WORD_BYTES * COLOURS }
    ensures { take (COLOUR_BYTES * length band.now) colours.new
        ≡ flat_map (word_colour words.now) band.now }
{
    for (i, index) in band.iter().enumerate() {
        let place = COLOUR_BYTES * i;
        let word = WORD_BYTES * *index as usize;
        colours[place..place + WORD_BYTES].copy_from_slice(&words[word..word + WORD_BYTES]);
    }
}

// The colours of a palette, a word each.
fn words_of(playpal: &[u8]) -> [u8; WORD_BYTES * COLOURS]
    requires palette { length playpal.now ≡ PALETTE_BYTES }
    ensures size { length result ≡ WORD_BYTES * COLOURS }
    ensures colours { (index : ℕ) → word_colour result index ≡ colour playpal.now index }
{
    let mut words = [0; WORD_BYTES * COLOURS];
    set_words(&mut words, playpal);
    words
}

fn set_words(words: &mut [u8], playpal: &[u8])
    requires room { length words.old ≡ WORD_BYTES * COLOURS }
    requires palette { length playpal.now ≡ PALETTE_BYTES }
    ensures size { length words.new ≡ WORD_BYTES * COLOURS }
    ensures colours { (index : ℕ) → word_colour words.new index ≡ colour playpal.now index }
{
    for index in 0..COLOURS {
        let place = COLOUR_BYTES * index;
        let word = WORD_BYTES * index;
        words[word] = playpal[place];
        words[word + 1] = playpal[place + 1];
        words[word + 2] = playpal[place + 2];
    }
}
