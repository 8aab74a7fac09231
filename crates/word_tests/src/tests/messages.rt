// The sentences of faults, and of refusals as the layers below tell them.

use angle_tables::TablesFault;
use command_line::CommandFault;
use csv_tables::{CsvFault, CsvRefusal};
use lump_cache::{CacheFault, DirFault, ZoneFull, ZoneMake};
use map_lumps::MapFault;
use scene_rules::{
    ArtRefusal, AuditRefusal, DirRefusal, Failed, Fault, MapRefusal, PutFault, TablesRefusal,
};
use std::fmt::Display;
use std::process::Abort;
use std::test::Fail;

// Compares what several faults read as with their sentences.
fn read<R: Abort + AllocGlobal, M: Display>(rt: &R, faults: &M, told: &str) -> Result<(), Fail> {
    let read = faults.to_string(rt.alloc())?;
    assert_eq!(rt; read.as_str(), told);
    Ok(())
}

#[test]
fn a_fault_reads_as_its_cause(rt: HostRuntime) -> Result<(), Fail> {
    let node = Fault::Refused(MapRefusal::NodeTwice { node: 235 });
    let absent: Fault<MapRefusal> = Fault::ReadFault;
    let full: Fault<MapRefusal> = Fault::ZoneFull {
        wanted: 4120,
        widest: 4096,
    };
    let memory: Fault<MapRefusal> = Fault::OutOfMemory;
    let art = AuditRefusal::Art(ArtRefusal::Playpal);
    let told = "NODES record 235 is reached a second time from the root\n\
        a file is absent or could not be read\n\
        the zone is full: a block of 4120 bytes was wanted, the widest gap has 4096\n\
        out of memory\n\
        PLAYPAL is absent, or has fewer than 768 bytes";
    let faults = format_args!("{node}\n{absent}\n{full}\n{memory}\n{art}");
    read(&rt, &faults, told)
}

#[test]
fn a_refusal_reads_alike_from_the_layer_that_finds_it(rt: HostRuntime) -> Result<(), Fail> {
    let sine = TablesFault::Refused(TablesRefusal::Sine { index: 7 });
    let twice = CsvFault::Refused(CsvRefusal::Repeat { row: 31 });
    let entry = DirFault::Refused(DirRefusal::Entry { file: 2, index: 17 });
    let deep = MapFault::Refused(MapRefusal::TooDeep { node: 1025 });
    let told = "sine 7 of the angle tables is past one\n\
        row 31 of the table has the thing type of an earlier row\n\
        WAD 2 ends before the lump of directory entry 17 does\n\
        NODES record 1025 is more than 1024 deep";
    read(&rt, &format_args!("{sine}\n{twice}\n{entry}\n{deep}"), told)
}

#[test]
fn a_fault_of_the_outside_or_a_zone_says_what_failed(rt: HostRuntime) -> Result<(), Fail> {
    let put = PutFault {
        call: 3,
        passed: 17,
    };
    let absent = DirFault::ReadFault;
    let usage = CommandFault::Usage;
    let size = ZoneMake::BadSize;
    let full = ZoneFull {
        wanted: 8216,
        widest: 0,
    };
    let lump = CacheFault::ReadFault;
    let told = "a file or an output could not be used\n\
        put 3 fails after 17 bytes\n\
        a WAD is absent or could not be read\n\
        the words are no command\n\
        a zone has 64 to 536870912 bytes, a multiple of 4\n\
        the zone is full: a block of 8216 bytes was wanted, the widest gap has 0\n\
        a lump could not be read";
    let faults = format_args!("{Failed}\n{put}\n{absent}\n{usage}\n{size}\n{full}\n{lump}");
    read(&rt, &faults, told)
}
