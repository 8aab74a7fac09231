// A file of the system, and outputs in memory.
use art_rules::{Failed, FileNo, HostShelf, MemorySink, PutFault, Shelf, Sink, TallySink};
use std::fs;
use std::test::Fail;

#[test]
fn a_file_of_the_system_is_read(rt: HostRuntime) -> Result<(), Fail> {
    fs::write(&rt, "a_file_of_the_system", "four score")?;
    let mut shelf = HostShelf::new(&rt, rt.alloc())?;
    let found = [
        shelf.find("a_file_that_is_not_there"),
        shelf.find("a_file_of_the_system"),
    ];
    assert_eq!(rt; found, [Err(Failed), Ok(FileNo(0))]);
    let sizes = [shelf.size_of(FileNo(0)), shelf.size_of(FileNo(1))];
    assert_eq!(rt; sizes, [Ok(10), Err(Failed)]);
    let mut piece = [0; 5];
    let past = shelf.read_at(FileNo(0), 6, &mut piece);
    let within = shelf.read_at(FileNo(0), 5, &mut piece);
    assert_eq!(rt; (past, within, piece), (Err(Failed), Ok(()), *b"score"));
    fs::remove_file(&rt, "a_file_of_the_system")?;
    Ok(())
}

#[test]
fn puts_are_kept_and_tallied(rt: HostRuntime) -> Result<(), Fail> {
    let fault = PutFault { call: 2, passed: 1 };
    let mut sink = MemorySink::new(rt.alloc(), 8, vec![in rt.alloc(); fault]?)?;
    let mut tally = TallySink::new();
    for (piece, kept) in [("abc", true), ("def", false), ("gh", true), ("ijk", false)] {
        let puts = (
            sink.put(piece.as_bytes()).is_ok(),
            tally.put(piece.as_bytes()).is_ok(),
        );
        assert_eq!(rt; puts, (kept, true), "{piece}");
    }
    assert_eq!(rt; sink.bytes(), b"abcdghij".as_slice());
    assert_eq!(rt; (tally.count(), tally.sum()), (11, 1122));
    Ok(())
}
