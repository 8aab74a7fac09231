// Each refusal as it is told: its code and its numbers as they are written, and its sentence as the
// person who mends the file reads it.

use refusals::{
    ArtRefusal, AuditRefusal, CsvRefusal, DirRefusal, Line, MapRefusal, Refusal, SceneRefusal,
    SpriteRefusal, TablesRefusal, TexRefusal, TrimRefusal, WeaponRefusal, add_refusal,
};
use scene_rules::{MemorySink, Sink};
use std::alloc::Global;
use std::process::Abort;
use std::test::Fail;

// More bytes than the lines of some refusals take.
const ROOM: usize = 4096;

// Writes a line of a refusal.
fn put_line(alloc: Global, lines: &mut MemorySink, refusal: Refusal) -> Result<(), Fail> {
    let sentence = format!(in alloc; ": {refusal}\n")?;
    let mut line = Line::new();
    add_refusal(&mut line, refusal);
    line.put(lines)?;
    lines.put(sentence.as_bytes())?;
    Ok(())
}

// Compares the lines of refusals.
fn are_told(rt: &impl Abort, alloc: Global, refusals: &[Refusal], told: &str) -> Result<(), Fail> {
    let mut lines = MemorySink::new(alloc, ROOM, Vec::new(alloc))?;
    for refusal in refusals {
        put_line(alloc, &mut lines, *refusal)?;
    }
    assert_eq!(rt; lines.bytes(), told.as_bytes());
    Ok(())
}

fn of_tables() -> &'static [Refusal] {
    &[
        Refusal::Tables(TablesRefusal::Length { found: 65539 }),
        Refusal::Tables(TablesRefusal::Sine { index: 7 }),
        Refusal::Tables(TablesRefusal::Tangent { index: 8 }),
        Refusal::Tables(TablesRefusal::Angle { index: 9 }),
        Refusal::Tables(TablesRefusal::FieldOfView),
        Refusal::Things(CsvRefusal::TooLong { bytes: 1048577 }),
        Refusal::Things(CsvRefusal::Header),
        Refusal::Things(CsvRefusal::Fields { row: 1 }),
        Refusal::Things(CsvRefusal::Number { row: 1, column: 2 }),
        Refusal::Things(CsvRefusal::Range { row: 3, column: 4 }),
        Refusal::Things(CsvRefusal::Repeat { row: 2 }),
        Refusal::Things(CsvRefusal::TooMany),
        Refusal::Path(CsvRefusal::TooLong { bytes: 1048577 }),
        Refusal::Path(CsvRefusal::Number { row: 1, column: 2 }),
        Refusal::Path(CsvRefusal::TooMany),
        Refusal::Weapons(CsvRefusal::Header),
        Refusal::Weapons(CsvRefusal::Range { row: 1, column: 3 }),
        Refusal::Weapons(CsvRefusal::TooMany),
    ]
}

const TABLES: &str =
    " 101 65539: the file of angle tables has 65539 bytes, but the tables take 65540
 102 7: sine 7 of the angle tables is past one
 103 8: tangent 8 of the angle tables is below the one before it
 104 9: angle 9 of the angle tables is past an eighth of a turn, or below the one before it
 105: the tangents of the angle tables give a view that is too wide or too narrow
 201 1048577: things: the table has 1048577 bytes, but may have at most 1048576
 202: things: the first line of the table is not its header
 203 1: things: row 1 of the table has another number of fields than the header
 204 1 2: things: row 1 of the table, column 2: the field is not a number
 205 3 4: things: row 3 of the table, column 4: the field is out of its range
 206 2: things: row 2 of the table has the thing type of an earlier row
 207: things: the table has too many rows
 301 1048577: path: the table has 1048577 bytes, but may have at most 1048576
 304 1 2: path: row 1 of the table, column 2: the field is not a number
 307: path: the table has too many rows
 1002: weapon layers: the first line of the table is not its header
 1005 1 3: weapon layers: row 1 of the table, column 3: the field is out of its range
 1007: weapon layers: the table has too many rows
";

#[test]
fn tables_have_the_codes_101_to_307_and_1001_to_1007(rt: HostRuntime) -> Result<(), Fail> {
    are_told(&rt, rt.alloc(), of_tables(), TABLES)
}

fn of_wads() -> &'static [Refusal] {
    &[
        Refusal::Wad(DirRefusal::NotWad { file: 0 }),
        Refusal::Wad(DirRefusal::Short { file: 1 }),
        Refusal::Wad(DirRefusal::Entry { file: 2, index: 17 }),
        Refusal::Wad(DirRefusal::TooMany),
        Refusal::Level(AuditRefusal::Art(ArtRefusal::Colormap)),
        Refusal::Level(AuditRefusal::Art(ArtRefusal::Playpal)),
        Refusal::Level(AuditRefusal::Map(MapRefusal::NoMap)),
        Refusal::Level(AuditRefusal::Map(MapRefusal::Size { lump: 0 })),
        Refusal::Level(AuditRefusal::Map(MapRefusal::Size { lump: 1 })),
        Refusal::Level(AuditRefusal::Map(MapRefusal::Size { lump: 2 })),
        Refusal::Level(AuditRefusal::Map(MapRefusal::Size { lump: 3 })),
        Refusal::Level(AuditRefusal::Map(MapRefusal::Size { lump: 5 })),
        Refusal::Level(AuditRefusal::Map(MapRefusal::Size { lump: 6 })),
        Refusal::Level(AuditRefusal::Map(MapRefusal::Size { lump: 7 })),
        Refusal::Level(AuditRefusal::Map(MapRefusal::NoLeaf)),
        Refusal::Level(AuditRefusal::Map(MapRefusal::Index {
            lump: 4,
            record_no: 731,
            field: 3,
        })),
        Refusal::Level(AuditRefusal::Map(MapRefusal::EmptyLeaf { leaf: 45 })),
        Refusal::Level(AuditRefusal::Map(MapRefusal::NodeTwice { node: 235 })),
        Refusal::Level(AuditRefusal::Map(MapRefusal::TooDeep { node: 1025 })),
    ]
}

const WADS: &str = " 401 0: WAD 0 does not begin with IWAD or PWAD
 402 1: WAD 1 ends before its header or its directory does
 403 2 17: WAD 2 ends before the lump of directory entry 17 does
 404: the WADs list more than 65535 lumps
 501: COLORMAP is absent, or has fewer than 8192 bytes
 502: PLAYPAL is absent, or has fewer than 768 bytes
 601: no WAD has the map's label with the eight lumps THINGS to SECTORS behind it
 602 0: THINGS has more than 65535 records
 602 1: LINEDEFS has more than 65535 records
 602 2: SIDEDEFS has more than 65535 records
 602 3: VERTEXES has more than 65535 records
 602 5: SSECTORS has more than 65535 records
 602 6: NODES has more than 65535 records
 602 7: SECTORS has more than 65535 records
 603: SSECTORS has no record
 604 4 731 3: SEGS record 731: field 3 names nothing that is there
 605 45: SSECTORS record 45 has no seg
 606 235: NODES record 235 is reached a second time from the root
 607 1025: NODES record 1025 is more than 1024 deep
";

#[test]
fn wads_and_maps_have_the_codes_401_to_607(rt: HostRuntime) -> Result<(), Fail> {
    are_told(&rt, rt.alloc(), of_wads(), WADS)
}

fn of_art() -> &'static [Refusal] {
    &[
        Refusal::Level(AuditRefusal::Texture(TexRefusal::Pnames)),
        Refusal::Level(AuditRefusal::Texture(TexRefusal::Lump { which: 1 })),
        Refusal::Level(AuditRefusal::Texture(TexRefusal::Entry { number: 0 })),
        Refusal::Level(AuditRefusal::Texture(TexRefusal::MissingPatch { texture: 2 })),
        Refusal::Level(AuditRefusal::Texture(TexRefusal::TooBig { texture: 83 })),
        Refusal::Level(AuditRefusal::Sprite(SpriteRefusal::NoFrame { thing: 52 })),
        Refusal::Level(AuditRefusal::Sprite(SpriteRefusal::MissingRotation {
            thing: 7,
            rotation: 3,
        })),
        Refusal::Level(AuditRefusal::Sprite(SpriteRefusal::BadPatch { lump: 1204 })),
        Refusal::Level(AuditRefusal::Scene(SceneRefusal::SideTexture { side: 648 })),
        Refusal::Level(AuditRefusal::Scene(SceneRefusal::SkyTexture)),
        Refusal::Level(AuditRefusal::Scene(SceneRefusal::SectorFlat { sector: 87 })),
        Refusal::Level(AuditRefusal::Scene(SceneRefusal::Shadow { thing: 0 })),
        Refusal::Level(AuditRefusal::Scene(SceneRefusal::Middle { side: 11 })),
        Refusal::Level(AuditRefusal::Scene(SceneRefusal::FlatName)),
        Refusal::Trim(TrimRefusal::MarkName { lump: 26 }),
        Refusal::Trim(TrimRefusal::TrimTooMany { count: 65540 }),
        Refusal::Trim(TrimRefusal::TrimTooLarge { bytes: 4294967300 }),
        Refusal::Level(AuditRefusal::WeaponArt(WeaponRefusal::NoFrame { row: 1 })),
        Refusal::Level(AuditRefusal::WeaponArt(WeaponRefusal::MissingRotation {
            row: 9,
            rotation: 1,
        })),
        Refusal::Level(AuditRefusal::WeaponArt(WeaponRefusal::BadPatch { lump: 1204 })),
    ]
}

const ART: &str = " 701: PNAMES is absent, or shorter than its count of names needs
 702 1: TEXTURE1 is absent or short, or textures pass 32767
 703 0: texture 0 passes the end of its lump, or has a width or height below 1
 704 2: texture 2 has a patch that PNAMES or the WADs lack, or that is not a patch
 705 83: texture 83: its composed columns pass 65536 bytes
 801 52: thing 52: no lump shows the sprite frame that it needs
 802 7 3: thing 7: no lump shows its sprite frame from rotation 3
 803 1204: lump 1204 has the name of a sprite, but is not a patch
 901 648: SIDEDEFS record 648 names a texture that is in neither TEXTURE1 nor TEXTURE2
 902: the map's sky texture is in neither TEXTURE1 nor TEXTURE2
 903 87: SECTORS record 87 names a flat that no WAD has
 904 0: THINGS record 0 would be drawn as a shadow, which is left out here
 905 11: SIDEDEFS record 11: a column of its masked mid texture has not exactly one patch
 906: no WAD has a flat of that name
 907 26: lump 26 has the name of a mark, so it cannot stand in a trimmed file
 908 65540: the trimmed file would have 65540 entries, but may have at most 65535
 909 4294967300: the trimmed file would have 4294967300 bytes, but may have at most 4294967295
 1011 1: weapon layer 1: no sprite lump has its frame
 1012 9 1: weapon layer 9: no sprite lump has rotation 1 of its frame
 1013 1204: lump 1204 is a weapon's picture, but no patch
";

#[test]
fn art_and_scenes_have_the_codes_701_to_909_and_1011_to_1013(rt: HostRuntime) -> Result<(), Fail> {
    are_told(&rt, rt.alloc(), of_art(), ART)
}
