// The numbers of a refusal, written.
ghost use Rattle.std.specs.Prelude.{◌≡◌, ◌+◌, ◌≤◌, ◌++◌, length};
ghost use Rattle.std.specs.List.{flat_map};
ghost use Rattle.refusals.specs.declared.codes.TheConstants.{GROUP_WEAPONS};
ghost use Rattle.refusals.specs.Lines.{spaced, numbers_of, level_numbers, csv_numbers, tables_numbers, wad_numbers, art_numbers, map_numbers, texture_numbers, sprite_numbers, scene_numbers, weapon_numbers, trim_numbers};

use crate::codes::{
    CODE_ANGLE, CODE_BAD_PATCH, CODE_COLORMAP, CODE_EMPTY_LEAF, CODE_ENTRY, CODE_FIELD_OF_VIEW,
    CODE_FLAT_NAME, CODE_INDEX, CODE_MAP_SIZE, CODE_MARK_NAME, CODE_MIDDLE, CODE_MISSING_PATCH,
    CODE_MISSING_ROTATION, CODE_NO_FRAME, CODE_NO_LEAF, CODE_NO_MAP, CODE_NODE_TWICE, CODE_NOT_WAD,
    CODE_PLAYPAL, CODE_PNAMES, CODE_SECTOR_FLAT, CODE_SHADOW, CODE_SHORT, CODE_SIDE_TEXTURE,
    CODE_SINE, CODE_SKY_TEXTURE, CODE_TABLES_LENGTH, CODE_TANGENT, CODE_TEXTURE_ENTRY,
    CODE_TEXTURE_LUMP, CODE_TOO_BIG, CODE_TOO_DEEP, CODE_TOO_MANY, CODE_TRIM_TOO_LARGE,
    CODE_TRIM_TOO_MANY, CODE_WEAPON_NO_FRAME, CODE_WEAPON_PATCH, CODE_WEAPON_ROTATION, GROUP_PATH,
    GROUP_THINGS, GROUP_WEAPONS,
};
use crate::line::{LINE_ROOM, Line, NUMBERS_ROOM};
use crate::{
    ArtRefusal, AuditRefusal, CsvRefusal, DirRefusal, MapRefusal, Refusal, SceneRefusal,
    SpriteRefusal, TablesRefusal, TexRefusal, TrimRefusal, WeaponRefusal,
};

/// Appends the code of a refusal and the numbers that it has, in decimal, each after a space. Takes
/// no memory.
///
/// This project's own.
pub fn add_refusal(line: &mut Line, refusal: Refusal)
    requires room { length line.old + NUMBERS_ROOM ≤ LINE_ROOM }
    ensures text { line.new ≡ line.old ++ flat_map spaced (numbers_of refusal) }
    ensures length { length line.new ≤ length line.old + NUMBERS_ROOM }
{
    match refusal {
        Refusal::Tables(refusal) => add_tables_numbers(line, refusal),
        Refusal::Things(refusal) => add_csv_numbers(line, GROUP_THINGS, refusal),
        Refusal::Path(refusal) => add_csv_numbers(line, GROUP_PATH, refusal),
        Refusal::Weapons(refusal) => add_csv_numbers(line, GROUP_WEAPONS, refusal),
        Refusal::Wad(refusal) => add_wad_numbers(line, refusal),
        Refusal::Level(refusal) => add_level_numbers(line, refusal),
        Refusal::Trim(refusal) => add_trim_numbers(line, refusal),
    }
}

fn add_level_numbers(line: &mut Line, refusal: AuditRefusal)
    requires room { length line.old + NUMBERS_ROOM ≤ LINE_ROOM }
    ensures text { line.new ≡ line.old ++ flat_map spaced (level_numbers refusal) }
    ensures length { length line.new ≤ length line.old + NUMBERS_ROOM }
{
    match refusal {
        AuditRefusal::Art(refusal) => add_art_numbers(line, refusal),
        AuditRefusal::Map(refusal) => add_map_numbers(line, refusal),
        AuditRefusal::Texture(refusal) => add_texture_numbers(line, refusal),
        AuditRefusal::Sprite(refusal) => add_sprite_numbers(line, refusal),
        AuditRefusal::Scene(refusal) => add_scene_numbers(line, refusal),
        AuditRefusal::WeaponArt(refusal) => add_weapon_numbers(line, refusal),
    }
}

fn add_tables_numbers(line: &mut Line, refusal: TablesRefusal)
    requires room { length line.old + NUMBERS_ROOM ≤ LINE_ROOM }
    ensures text { line.new ≡ line.old ++ flat_map spaced (tables_numbers refusal) }
    ensures length { length line.new ≤ length line.old + NUMBERS_ROOM }
{
    match refusal {
        TablesRefusal::Length { found } => line.add_numbers(&[CODE_TABLES_LENGTH, found]),
        TablesRefusal::Sine { index } => line.add_numbers(&[CODE_SINE, index]),
        TablesRefusal::Tangent { index } => line.add_numbers(&[CODE_TANGENT, index]),
        TablesRefusal::Angle { index } => line.add_numbers(&[CODE_ANGLE, index]),
        TablesRefusal::FieldOfView => line.add_numbers(&[CODE_FIELD_OF_VIEW]),
    }
}

fn add_wad_numbers(line: &mut Line, refusal: DirRefusal)
    requires room { length line.old + NUMBERS_ROOM ≤ LINE_ROOM }
    ensures text { line.new ≡ line.old ++ flat_map spaced (wad_numbers refusal) }
    ensures length { length line.new ≤ length line.old + NUMBERS_ROOM }
{
    match refusal {
        DirRefusal::NotWad { file } => line.add_numbers(&[CODE_NOT_WAD, file]),
        DirRefusal::Short { file } => line.add_numbers(&[CODE_SHORT, file]),
        DirRefusal::Entry { file, index } => line.add_numbers(&[CODE_ENTRY, file, index]),
        DirRefusal::TooMany => line.add_numbers(&[CODE_TOO_MANY]),
    }
}

fn add_art_numbers(line: &mut Line, refusal: ArtRefusal)
    requires room { length line.old + NUMBERS_ROOM ≤ LINE_ROOM }
    ensures text { line.new ≡ line.old ++ flat_map spaced (art_numbers refusal) }
    ensures length { length line.new ≤ length line.old + NUMBERS_ROOM }
{
    match refusal {
        ArtRefusal::Colormap => line.add_numbers(&[CODE_COLORMAP]),
        ArtRefusal::Playpal => line.add_numbers(&[CODE_PLAYPAL]),
    }
}

fn add_map_numbers(line: &mut Line, refusal: MapRefusal)
    requires room { length line.old + NUMBERS_ROOM ≤ LINE_ROOM }
    ensures text { line.new ≡ line.old ++ flat_map spaced (map_numbers refusal) }
    ensures length { length line.new ≤ length line.old + NUMBERS_ROOM }
{
    match refusal {
        MapRefusal::NoMap => line.add_numbers(&[CODE_NO_MAP]),
        MapRefusal::Size { lump } => line.add_numbers(&[CODE_MAP_SIZE, lump]),
        MapRefusal::NoLeaf => line.add_numbers(&[CODE_NO_LEAF]),
        MapRefusal::Index {
            lump,
            record_no,
            field,
        } => line.add_numbers(&[CODE_INDEX, lump, record_no, field]),
        MapRefusal::EmptyLeaf { leaf } => line.add_numbers(&[CODE_EMPTY_LEAF, leaf]),
        MapRefusal::NodeTwice { node } => line.add_numbers(&[CODE_NODE_TWICE, node]),
        MapRefusal::TooDeep { node } => line.add_numbers(&[CODE_TOO_DEEP, node]),
    }
}

fn add_texture_numbers(line: &mut Line, refusal: TexRefusal)
    requires room { length line.old + NUMBERS_ROOM ≤ LINE_ROOM }
    ensures text { line.new ≡ line.old ++ flat_map spaced (texture_numbers refusal) }
    ensures length { length line.new ≤ length line.old + NUMBERS_ROOM }
{
    match refusal {
        TexRefusal::Pnames => line.add_numbers(&[CODE_PNAMES]),
        TexRefusal::Lump { which } => line.add_numbers(&[CODE_TEXTURE_LUMP, which]),
        TexRefusal::Entry { number } => line.add_numbers(&[CODE_TEXTURE_ENTRY, number]),
        TexRefusal::MissingPatch { texture } => line.add_numbers(&[CODE_MISSING_PATCH, texture]),
        TexRefusal::TooBig { texture } => line.add_numbers(&[CODE_TOO_BIG, texture]),
    }
}

fn add_sprite_numbers(line: &mut Line, refusal: SpriteRefusal)
    requires room { length line.old + NUMBERS_ROOM ≤ LINE_ROOM }
    ensures text { line.new ≡ line.old ++ flat_map spaced (sprite_numbers refusal) }
    ensures length { length line.new ≤ length line.old + NUMBERS_ROOM }
{
    match refusal {
        SpriteRefusal::NoFrame { thing } => line.add_numbers(&[CODE_NO_FRAME, thing]),
        SpriteRefusal::MissingRotation { thing, rotation } => line.add_numbers(&[
            CODE_MISSING_ROTATION,
            thing,
            rotation,
        ]),
        SpriteRefusal::BadPatch { lump } => line.add_numbers(&[CODE_BAD_PATCH, lump]),
    }
}

fn add_scene_numbers(line: &mut Line, refusal: SceneRefusal)
    requires room { length line.old + NUMBERS_ROOM ≤ LINE_ROOM }
    ensures text { line.new ≡ line.old ++ flat_map spaced (scene_numbers refusal) }
    ensures length { length line.new ≤ length line.old + NUMBERS_ROOM }
{
    match refusal {
        SceneRefusal::SideTexture { side } => line.add_numbers(&[CODE_SIDE_TEXTURE, side]),
        SceneRefusal::SkyTexture => line.add_numbers(&[CODE_SKY_TEXTURE]),
        SceneRefusal::SectorFlat { sector } => line.add_numbers(&[CODE_SECTOR_FLAT, sector]),
        SceneRefusal::Shadow { thing } => line.add_numbers(&[CODE_SHADOW, thing]),
        SceneRefusal::Middle { side } => line.add_numbers(&[CODE_MIDDLE, side]),
        SceneRefusal::FlatName => line.add_numbers(&[CODE_FLAT_NAME]),
    }
}

fn add_weapon_numbers(line: &mut Line, refusal: WeaponRefusal)
    requires room { length line.old + NUMBERS_ROOM ≤ LINE_ROOM }
    ensures text { line.new ≡ line.old ++ flat_map spaced (weapon_numbers refusal) }
    ensures length { length line.new ≤ length line.old + NUMBERS_ROOM }
{
    match refusal {
        WeaponRefusal::NoFrame { row } => line.add_numbers(&[CODE_WEAPON_NO_FRAME, row]),
        WeaponRefusal::MissingRotation { row, rotation } => line.add_numbers(&[
            CODE_WEAPON_ROTATION,
            row,
            rotation,
        ]),
        WeaponRefusal::BadPatch { lump } => line.add_numbers(&[CODE_WEAPON_PATCH, lump]),
    }
}

fn add_trim_numbers(line: &mut Line, refusal: TrimRefusal)
    requires room { length line.old + NUMBERS_ROOM ≤ LINE_ROOM }
    ensures text { line.new ≡ line.old ++ flat_map spaced (trim_numbers refusal) }
    ensures length { length line.new ≤ length line.old + NUMBERS_ROOM }
{
    match refusal {
        TrimRefusal::MarkName { lump } => line.add_numbers(&[CODE_MARK_NAME, lump]),
        TrimRefusal::TrimTooMany { count } => line.add_numbers(&[CODE_TRIM_TOO_MANY, count]),
        TrimRefusal::TrimTooLarge { bytes } => line.add_numbers(&[CODE_TRIM_TOO_LARGE, bytes]),
    }
}

// Those of a table of text, whose codes stand behind the number of its group.
fn add_csv_numbers(line: &mut Line, group: u64, refusal: CsvRefusal)
    requires group { group ≤ GROUP_WEAPONS }
    requires room { length line.old + NUMBERS_ROOM ≤ LINE_ROOM }
    ensures text { line.new ≡ line.old ++ flat_map spaced (csv_numbers group refusal) }
    ensures length { length line.new ≤ length line.old + NUMBERS_ROOM }
{
    match refusal {
        CsvRefusal::TooLong { bytes } => line.add_numbers(&[group + 1, bytes]),
        CsvRefusal::Header => line.add_numbers(&[group + 2]),
        CsvRefusal::Fields { row } => line.add_numbers(&[group + 3, row]),
        CsvRefusal::Number { row, column } => line.add_numbers(&[group + 4, row, column]),
        CsvRefusal::Range { row, column } => line.add_numbers(&[group + 5, row, column]),
        CsvRefusal::Repeat { row } => line.add_numbers(&[group + 6, row]),
        CsvRefusal::TooMany => line.add_numbers(&[group + 7]),
    }
}
