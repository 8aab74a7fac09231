// WADs that are put together, and bytes that are put over a file.

use std::alloc::{AllocError, Global};

const HEADER_BYTES: usize = 12;

const NAME_BYTES: usize = 8;

/// A PWAD of these lumps, each with its name, in this order.
pub fn wad_of(alloc: Global, lumps: &[(&str, &[u8])]) -> Result<Vec<u8>, AllocError> {
    let mut bytes = Vec::new(alloc);
    let mut directory = Vec::new(alloc);
    for (name, lump) in lumps {
        put_size(&mut directory, bytes.len().wrapping_add(HEADER_BYTES))?;
        put_size(&mut directory, lump.len())?;
        directory.extend_from_slice(&name_bytes(name))?;
        bytes.extend_from_slice(lump)?;
    }
    let mut wad = b"PWAD".to_vec(alloc)?;
    put_size(&mut wad, lumps.len())?;
    put_size(&mut wad, bytes.len().wrapping_add(HEADER_BYTES))?;
    wad.extend_from_slice(&bytes)?;
    wad.extend_from_slice(&directory)?;
    Ok(wad)
}

// A name as a directory has it: filled with bytes 0.
fn name_bytes(name: &str) -> [u8; NAME_BYTES] {
    let mut bytes = [0; NAME_BYTES];
    for (new, byte) in bytes.iter_mut().zip(name.as_bytes()) {
        *new = *byte;
    }
    bytes
}

fn put_size(out: &mut Vec<u8>, size: usize) -> Result<(), AllocError> {
    out.extend_from_slice(&size.to_le_bytes()[..4])
}

/// Appends numbers of 16 bits, as the records of a level have them.
pub fn put_halves(out: &mut Vec<u8>, halves: &[u16]) -> Result<(), AllocError> {
    for half in halves {
        out.extend_from_slice(&half.to_le_bytes())?;
    }
    Ok(())
}

/// Puts bytes over a file, from an offset on. What passes its end is left out.
pub fn put_over(file: &mut [u8], offset: usize, bytes: &[u8]) {
    for (i, new) in bytes.iter().enumerate() {
        if let Some(old) = file.get_mut(offset.wrapping_add(i)) {
            *old = *new;
        }
    }
}
