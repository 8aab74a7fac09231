// What is asked for: a job with its names, numbers and files.

use lump_rules::Name8;
use picture_rules::Spans;

/// What frames are written as.
#[derive(Clone, Copy, Debug, PartialEq, Eq)]
pub enum Format {
    /// A byte a pixel, its index in the palette.
    Index,
    /// A PPM picture a view.
    Ppm,
}

/// A job over a level.
#[derive(Clone, Copy, Debug, PartialEq, Eq)]
pub enum LevelTask {
    Render(Format),
    Audit,
    Limits,
    List,
    Trim,
    Trace,
}

/// A made file, with the number that it grows by, 1 to 32.
#[derive(Clone, Copy, Debug, PartialEq, Eq)]
pub enum MakeJob {
    Wad(u8),
    Path(u8),
    Tables,
    Things,
}

/// The names of the files beside the WADs.
#[derive(Clone, Copy)]
pub struct Files<'a> {
    pub tables: &'a str,
    pub things: &'a str,
    pub path: &'a str,
    pub weapon: Option<&'a str>,
}

/// The numbers of a job over a level: the zone's size in bytes, the skill, the size of the view,
/// and the most planes and openings of a view; and how spans are stepped.
#[derive(Clone, Copy, Debug, PartialEq, Eq)]
pub struct Settings {
    pub zone: u32,
    pub skill: u8,
    pub size: u8,
    pub planes: u32,
    pub openings: u32,
    pub spans: Spans,
}

/// A level and how it is looked at.
#[derive(Clone, Copy)]
pub struct LevelJob<'a> {
    pub map: Name8,
    pub files: Files<'a>,
    pub settings: Settings,
}

/// A command.
#[derive(Drop)]
pub enum Command<'a> {
    /// The flat of that name, in one WAD.
    Flat {
        name: Name8,
        file: &'a str,
    },
    /// A job over a level, in 1 to 16 WADs.
    Level {
        task: LevelTask,
        level: LevelJob<'a>,
        wads: Vec<&'a str>,
    },
    Make(MakeJob),
    /// The made files of `count`, 1 to 32, rendered in a zone of that many bytes.
    Exercise {
        count: u8,
        zone: u32,
        format: Format,
    },
}
