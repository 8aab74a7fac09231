// The files of runs over levels, and such runs. Words that name no tables, things or path are given
// the made ones.

use crate::tests::runs::{Ended, Written, compare_bytes, compare_text, parts_of, run_words};
use doom_run::Status;
use made_rules::MAX_NUMBER;
use outside::{MemoryFile, MemoryShelf};
use std::alloc::{AllocError, Global};
use std::process::Abort;
use std::test::Fail;
use test_files::{file_of, made_files, put_over};

/// Bytes that are put over a file, from an offset on.
pub(crate) type Change = (usize, &'static [u8]);

/// The WADs of runs: made.wad is the made one of a number, with changes; and more.wad.
#[derive(Clone, Copy)]
pub(crate) struct Wads<'a> {
    pub(crate) made: u32,
    pub(crate) changes: &'a [Change],
    pub(crate) more: &'a [u8],
}

pub(crate) const MADE: Wads<'static> = Wads {
    made: 1,
    changes: &[],
    more: b"",
};

pub(crate) const MADE_10: Wads<'static> = Wads { made: 10, ..MADE };

/// The made WAD of 1, and another beside it.
pub(crate) fn beside(more: &[u8]) -> Wads<'_> {
    Wads { more, ..MADE }
}

// Beside the made files: tables of things, of views, and of weapons, each behind its name.
static TEXTS: [&str; 15] = [
    "twice => type,sprite,frame,bright,hang,shadow\n2035,TREE,A,0,0,0\n2035,TREE,A,0,0,0\n",
    "shadow => type,sprite,frame,bright,hang,shadow\n2035,TREE,A,0,0,1\n",
    "no-view => x,y,z,angle\n",
    "three-fields => x,y,z,angle\n1,2,3\n",
    "letter => x,y,z,angle\n1,2,x,4\n",
    "vertex => x,y,z,angle\n0,0,4718592,536870912\n",
    "east => x,y,z,angle\n0,0,2686976,0\n",
    "west-east-west => x,y,z,angle\n0,0,2686976,2147483648\n0,0,2686976,0\n0,0,2686976,2147483648\n",
    "lit => x,y,z,angle,extralight,colormap\n0,0,2686976,0,1,0\n",
    "mapped => x,y,z,angle,extralight,colormap\n0,0,2686976,0,0,5\n",
    "map-33 => x,y,z,angle,extralight,colormap\n0,0,2686976,0,0,33\n",
    "middle => view,sprite,frame,bright,sx,sy\n0,TREE,A,1,10485760,6553600\n",
    "left => view,sprite,frame,bright,sx,sy\n0,TREE,A,1,0,6553600\n",
    "frame-b => view,sprite,frame,bright,sx,sy\n0,TREE,B,1,0,0\n",
    "bright-2 => view,sprite,frame,bright,sx,sy\n0,TREE,A,2,0,0\n",
];

// The files of runs: the made ones, the tables cut by a byte, more.wad and the texts.
fn files_of(alloc: Global, wads: &Wads) -> Result<Vec<MemoryFile>, Fail> {
    if wads.made < 1 || wads.made > MAX_NUMBER {
        return Err("a number of made files".into());
    }
    let mut files = made_files(alloc, wads.made)?;
    let mut cut = files[1].bytes.clone()?;
    cut.pop();
    change(&mut files[0].bytes, wads.changes);
    files.push(file_of(alloc, "cut", cut)?)?;
    files.push(file_of(alloc, "more.wad", wads.more.to_vec(alloc)?)?)?;
    put_texts(alloc, &mut files)?;
    Ok(files)
}

fn change(file: &mut [u8], changes: &[Change]) {
    for (offset, bytes) in changes {
        put_over(file, *offset, bytes);
    }
}

fn put_texts(alloc: Global, files: &mut Vec<MemoryFile>) -> Result<(), Fail> {
    for row in TEXTS {
        let (name, text) = parts_of(row)?;
        files.push(file_of(alloc, name, text.as_bytes().to_vec(alloc)?)?)?;
    }
    Ok(())
}

/// The shelf of these files, whose calls of these numbers fail.
pub(crate) fn shelf_of(alloc: Global, wads: &Wads, failing: Vec<u64>) -> Result<MemoryShelf, Fail> {
    let files = files_of(alloc, wads)?;
    if files.len() > 21 {
        return Err("too many files".into());
    }
    Ok(MemoryShelf::new(files, failing))
}

/// The words, with the made files that they do not name.
pub(crate) fn level_words(alloc: Global, words: &str) -> Result<String, AllocError> {
    let mut all = words.to_string(alloc)?;
    for (option, file) in [("--tables", " t"), ("--things", " h"), ("--path", " p")] {
        if !words.contains(option) {
            all.push_str(" ")?;
            all.push_str(option)?;
            all.push_str(file)?;
        }
    }
    Ok(all)
}

/// A run over a level.
pub(crate) fn run_level(
    alloc: Global,
    shelf: &mut MemoryShelf,
    words: &str,
) -> Result<Ended, AllocError> {
    let words = level_words(alloc, words)?;
    run_words(alloc, &words, shelf, Vec::new(alloc))
}

/// What a run over a level writes, which is done.
pub(crate) fn written(alloc: Global, wads: &Wads, words: &str) -> Result<Vec<u8>, Fail> {
    let mut shelf = shelf_of(alloc, wads, Vec::new(alloc))?;
    let ended = run_level(alloc, &mut shelf, words)?;
    if ended.status != Status::Done {
        return Err("a run that is done".into());
    }
    Ok(ended.out.bytes().to_vec(alloc)?)
}

/// Asserts what runs over a level tell, each by its words, an arrow and that text.
pub(crate) fn check_told(
    rt: &(impl Abort + AllocGlobal),
    wads: &Wads,
    rows: &[&str],
) -> Result<(), Fail> {
    let mut shelf = shelf_of(rt.alloc(), wads, Vec::new(rt.alloc()))?;
    for row in rows {
        let (words, told) = parts_of(row)?;
        let ended = run_level(rt.alloc(), &mut shelf, words)?;
        compare_text(rt, &ended, words, told);
    }
    Ok(())
}

/// Asserts what runs over a level write, which are done.
pub(crate) fn check_written(
    rt: &(impl Abort + AllocGlobal),
    wads: &Wads,
    rows: &[Written],
) -> Result<(), Fail> {
    let mut shelf = shelf_of(rt.alloc(), wads, Vec::new(rt.alloc()))?;
    for row in rows {
        let ended = run_level(rt.alloc(), &mut shelf, row.0)?;
        compare_bytes(rt, &ended, row);
    }
    Ok(())
}
