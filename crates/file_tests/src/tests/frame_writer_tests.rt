// What no clause says: how many puts a frame and a picture are.
use art_rules::{MemorySink, PutFault};
use frame_writer::{FRAME_BYTES, PALETTE_BYTES, PPM_BYTES, put_index, put_ppm};
use std::alloc::{AllocError, Global};
use std::test::Fail;

// A sink whose put of that number fails after 100 bytes.
fn sink_of(alloc: Global, call: u64) -> Result<MemorySink, AllocError> {
    let failing = vec![in alloc; PutFault { call, passed: 100 }]?;
    MemorySink::new(alloc, PPM_BYTES, failing)
}

// Whether a frame goes out where that put fails, and how many bytes do.
fn index(alloc: Global, call: u64) -> Result<(bool, usize), AllocError> {
    let frame = vec![in alloc; 1; FRAME_BYTES]?;
    let mut sink = sink_of(alloc, call)?;
    let is_out = put_index(&mut sink, &frame).is_ok();
    Ok((is_out, sink.bytes().len()))
}

// The same of a picture.
fn ppm(alloc: Global, call: u64) -> Result<(bool, usize), AllocError> {
    let frame = vec![in alloc; 1; FRAME_BYTES]?;
    let playpal = vec![in alloc; 2; PALETTE_BYTES]?;
    let mut sink = sink_of(alloc, call)?;
    let is_out = put_ppm(&mut sink, &frame, &playpal).is_ok();
    Ok((is_out, sink.bytes().len()))
}

#[test]
fn a_frame_is_one_put_and_a_picture_six(rt: HostRuntime) -> Result<(), Fail> {
    let alloc = rt.alloc();
    let frames = [index(alloc, 1)?, index(alloc, 2)?];
    assert_eq!(rt; frames, [(false, 100), (true, 64000)]);
    let pictures = [
        ppm(alloc, 1)?,
        ppm(alloc, 2)?,
        ppm(alloc, 6)?,
        ppm(alloc, 7)?,
    ];
    let expected = [(false, 15), (false, 115), (false, 153715), (true, 192015)];
    assert_eq!(rt; pictures, expected);
    Ok(())
}
