// A cache over a shelf in memory, from its making to its bytes.
ghost use Rattle.std.specs.Prelude.{◌<◌, length};

use crate::tests::files::{NO_CALL, load_directory, shelf_of};
use art_rules::MemoryShelf;
use lump_cache::{CacheFault, Directory, LumpCache, LumpNo, Name8, fetch_named, live_bytes};
use std::alloc::Global;
use std::test::Fail;

// A lump FIVE with the bytes 1 to 5 at 12, LONG of 45 bytes at 19, the empty lump NONE, a later FIVE
// with 6 and 7 at 17, and the directory at 64.
fn wad() -> &'static [u8; 128] {
    b"PWAD\x04\0\0\0\x40\0\0\0\x01\x02\x03\x04\x05\x06\x07\
\0\0\0\0\0\0\0\0\0\0\0\0\0\0\0\0\0\0\0\0\0\0\0\0\0\0\0\0\0\0\0\0\0\0\0\0\0\0\0\0\0\0\0\0\0\
\x0c\0\0\0\x05\0\0\0FIVE\0\0\0\0\
\x13\0\0\0\x2d\0\0\0LONG\0\0\0\0\
\x13\0\0\0\0\0\0\0NONE\0\0\0\0\
\x11\0\0\0\x02\0\0\0five\0\0\0\0"
}

// What a zone of 64 bytes says of LONG.
const FULL: CacheFault = CacheFault::ZoneFull {
    wanted: 72,
    widest: 64,
};

// What a lump asked for by name comes to, whether it then has these bytes, and the bytes of the zone
// that are free.
type Answer = (Result<Option<LumpNo>, CacheFault>, bool, u32);

// What comes of the name in a zone of that size, where that call of the shelf fails.
fn asked(
    alloc: Global,
    failing: u64,
    size: u32,
    name: &str,
    wanted: Option<&[u8]>,
) -> Result<Answer, Fail> {
    let mut shelf = shelf_of(alloc, wad().to_vec(alloc)?, failing)?;
    let dir = load_directory(alloc, &mut shelf)?;
    asked_over(alloc, &dir, &mut shelf, size, name, wanted)
}

// The same, with the lumps of this directory.
fn asked_over(
    alloc: Global,
    dir: &Directory,
    shelf: &mut MemoryShelf,
    size: u32,
    name: &str,
    wanted: Option<&[u8]>,
) -> Result<Answer, Fail>
    requires { length dir.now.lumps < 65536 }
{
    let mut cache = LumpCache::new(alloc, dir, size, 0)?;
    let name = Name8::from_text(name).ok_or("a name")?;
    let lump = fetch_named(&mut cache, dir, shelf, &name);
    let is_wanted = match lump {
        Ok(lump) => live_bytes(&cache, lump) == wanted,
        Err(_) => wanted.is_none(),
    };
    Ok((lump, is_wanted, cache.zone().figures().free))
}

#[test]
fn the_last_lump_of_a_name_is_read_where_it_has_bytes_and_room(
    rt: HostRuntime,
) -> Result<(), Fail> {
    let read_fault = Err(CacheFault::ReadFault);
    let later = Some([6, 7].as_slice());
    let empty = Some([].as_slice());
    for (failing, size, name, lump, bytes, free) in [
        (NO_CALL, 4096, "five", Ok(Some(LumpNo(3))), later, 4068),
        (5, 4096, "five", read_fault, None, 4096),
        (5, 4096, "none", Ok(Some(LumpNo(2))), empty, 4072),
        (NO_CALL, 4096, "six", Ok(None), None, 4096),
        (NO_CALL, 64, "long", Err(FULL), None, 64),
    ] {
        let answer = asked(rt.alloc(), failing, size, name, bytes)?;
        assert_eq!(rt; answer, (lump, true, free), "{name}");
    }
    Ok(())
}
