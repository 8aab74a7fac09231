// Tables of text: what their rows say, which fields are past their ranges, and how many rows a table
// may have.
use csv_tables::{
    CsvFault, CsvRefusal, PathRow, PathTable, ThingRow, ThingTable, WeaponRow, WeaponTable,
};
use std::alloc::{AllocError, Global};
use std::process::Abort;
use std::test::Fail;

#[derive(Clone, Copy)]
enum Kind {
    Things,
    Path,
    Weapons,
}

// What becomes of a table: it is taken, refused, or there is no memory.
type Judged = Result<(), Option<CsvRefusal>>;

fn judged(alloc: Global, kind: Kind, text: &str) -> Judged {
    let bytes = text.as_bytes();
    let fault = match kind {
        Kind::Things => ThingTable::read(alloc, bytes).err(),
        Kind::Path => PathTable::read(alloc, bytes).err(),
        Kind::Weapons => WeaponTable::read(alloc, bytes).err(),
    };
    match fault {
        None => Ok(()),
        Some(CsvFault::Refused(refusal)) => Err(Some(refusal)),
        Some(CsvFault::OutOfMemory) => Err(None),
    }
}

fn header(kind: Kind) -> &'static str {
    match kind {
        Kind::Things => "type,sprite,frame,bright,hang,shadow",
        Kind::Path => "x,y,z,angle,extralight,colormap",
        Kind::Weapons => "view,sprite,frame,bright,sx,sy",
    }
}

#[test]
fn a_path_has_its_views(rt: HostRuntime) -> Result<(), Fail> {
    let bytes = b"x,y,z,angle\n2621440,2621440,4718592,0\n-7,6094848,4718592,4294967295\n";
    let first = PathRow {
        x: 2621440,
        y: 2621440,
        z: 4718592,
        angle: 0,
        extralight: 0,
        colormap: 0,
    };
    let second = PathRow {
        x: -7,
        y: 6094848,
        angle: 4294967295,
        ..first
    };
    let path = PathTable::read(rt.alloc(), bytes.as_slice())?;
    assert_eq!(rt; path.views(), [first, second].as_slice());
    Ok(())
}

#[test]
fn a_thing_table_has_the_looks_of_a_type(rt: HostRuntime) -> Result<(), Fail> {
    let bytes = b"type,sprite,frame,bright,hang,shadow\n2035,TREE,A,0,0,0\n";
    let tree = ThingRow {
        sprite: *b"TREE",
        frame: b'A',
        bright: false,
        hang: 0,
        shadow: false,
    };
    let things = ThingTable::read(rt.alloc(), bytes.as_slice())?;
    assert_eq!(rt; [things.row(2035), things.row(2034)], [Some(tree), None]);
    Ok(())
}

// With a byte order mark, quoted fields and lines as they are ended elsewhere.
#[test]
fn a_weapon_has_its_layer(rt: HostRuntime) -> Result<(), Fail> {
    let bytes =
        b"\xef\xbb\xbf\"view\",sprite,frame,bright,sx,sy\r\n9999,pis\",],1,-65536,\"2097152\"\r\n";
    let pistol = WeaponRow {
        view: 9999,
        sprite: *b"PIS\"",
        frame: b']',
        bright: true,
        sx: -65536,
        sy: 2097152,
    };
    let weapons = WeaponTable::read(rt.alloc(), bytes.as_slice())?;
    assert_eq!(rt; weapons.rows(), [pistol].as_slice());
    Ok(())
}

#[test]
fn tables_are_refused_by_their_first_fault(rt: HostRuntime) {
    let number = CsvRefusal::Number { row: 1, column: 2 };
    let twice = "type,sprite,frame,bright,hang,shadow\n2035,TREE,A,0,0,0\n2035,TREE,A,0,0,0\n";
    for (kind, text, expected) in [
        (Kind::Path, "x,y,z,angle", Ok(())),
        (Kind::Path, "", Err(Some(CsvRefusal::Header))),
        (Kind::Path, "x,y,z,angle\n1,2,x,4\n", Err(Some(number))),
        (
            Kind::Path,
            "x,y,z,angle\n1,2,3\n",
            Err(Some(CsvRefusal::Fields { row: 1 })),
        ),
        (
            Kind::Things,
            twice,
            Err(Some(CsvRefusal::Repeat { row: 2 })),
        ),
    ] {
        assert_eq!(rt; judged(rt.alloc(), kind, text), expected, "{text}");
    }
}

// What becomes of a table of one row.
fn judged_row(alloc: Global, kind: Kind, row: &str) -> Judged {
    let head = header(kind);
    match format!(in alloc; "{head}\n{row}\n") {
        Ok(text) => judged(alloc, kind, &text),
        Err(_) => Err(None),
    }
}

// Rows that are taken.
fn rows_within() -> &'static [(Kind, &'static str)] {
    &[
        (Kind::Things, "0,!!!!,A,0,0,0"),
        (Kind::Things, "65535,~~~~,],1,32767,1"),
        (Kind::Path, "-2147483648,-2147483648,-2147483648,0,0,0"),
        (
            Kind::Path,
            "2147483647,2147483647,2147483647,4294967295,15,32",
        ),
        (Kind::Weapons, "0,!!!!,A,0,-2147483648,-2147483648"),
        (Kind::Weapons, "9999,~~~~,],1,2147483647,2147483647"),
    ]
}

// Rows with a field out of its range, and its column.
fn rows_past() -> &'static [(Kind, &'static str, u64)] {
    &[
        (Kind::Things, "65536,TREE,A,0,0,0", 0),
        (Kind::Things, "1,TRE ,A,0,0,0", 1),
        (Kind::Things, "1,TRE\x7f,A,0,0,0", 1),
        (Kind::Things, "1,TREE,@,0,0,0", 2),
        (Kind::Things, "1,TREE,^,0,0,0", 2),
        (Kind::Things, "1,TREE,A,0,32768,0", 4),
        (Kind::Path, "2147483648,0,0,0,0,0", 0),
        (Kind::Path, "0,-2147483649,0,0,0,0", 1),
        (Kind::Path, "0,0,0,4294967296,0,0", 3),
        (Kind::Path, "0,0,0,0,16,0", 4),
        (Kind::Path, "0,0,0,0,0,33", 5),
        (Kind::Weapons, "10000,TREE,A,0,0,0", 0),
        (Kind::Weapons, "0,TREE,A,2,0,0", 3),
        (Kind::Weapons, "0,TREE,A,0,0,2147483648", 5),
    ]
}

#[test]
fn fields_have_their_ranges(rt: HostRuntime) {
    for (kind, row) in rows_within() {
        assert_eq!(rt; judged_row(rt.alloc(), *kind, row), Ok(()), "{row}");
    }
    for (kind, row, column) in rows_past() {
        let range = CsvRefusal::Range {
            row: 1,
            column: *column,
        };
        assert_eq!(rt;
            judged_row(rt.alloc(), *kind, row),
            Err(Some(range)),
            "{row}"
        );
    }
}

// A table of so many rows, of which no two are alike.
fn table_of(alloc: Global, kind: Kind, count: u16) -> Result<String, AllocError> {
    let mut table = header(kind).to_string(alloc)?;
    let rest = match kind {
        Kind::Things => ",TREE,A,0,0,0",
        Kind::Path => ",2,3,4,0,0",
        Kind::Weapons => ",TREE,A,1,0,0",
    };
    for n in 0..count {
        let first = n % 10000;
        let row = format!(in alloc; "\n{first}{rest}")?;
        table.push_str(&row)?;
    }
    Ok(table)
}

// What becomes of such a table.
fn judged_many(alloc: Global, kind: Kind, count: u16) -> Judged {
    match table_of(alloc, kind, count) {
        Ok(table) => judged(alloc, kind, &table),
        Err(_) => Err(None),
    }
}

#[test]
fn tables_have_their_most_rows(rt: HostRuntime) {
    let many = Err(Some(CsvRefusal::TooMany));
    for (kind, most) in [
        (Kind::Things, 4096),
        (Kind::Path, 10000),
        (Kind::Weapons, 20000),
    ] {
        assert_eq!(rt; judged_many(rt.alloc(), kind, most), Ok(()), "{most}");
        assert_eq!(rt; judged_many(rt.alloc(), kind, most + 1), many, "{most}");
    }
}
