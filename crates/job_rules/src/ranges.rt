// The ranges of the numbers of a command.

use picture_rules::{MOST_OPENINGS as ROOM_OF_OPENINGS, MOST_VISPLANES};
use word_rules::WORD_SIZE;
use zone_rules::{MAX_ZONE_SIZE, MIN_ZONE_SIZE};

/// The size of a zone in bytes: the least and greatest, and what it is a multiple of.
pub const MIN_ZONE: u32 = MIN_ZONE_SIZE;

pub const MAX_ZONE: u32 = MAX_ZONE_SIZE;

pub const ZONE_STEP: u32 = WORD_SIZE as u32;

/// The skill.
pub const MIN_SKILL: u32 = 1;

pub const MAX_SKILL: u32 = 5;

/// The size of the view.
pub const MIN_SIZE: u32 = view_rules::MIN_SIZE as u32;

pub const MAX_SIZE: u32 = view_rules::MAX_SIZE as u32;

/// The most planes of a view: the original's limit, `MAXVISPLANES` of r_plane.c, and what an option
/// may raise it to.
pub const MIN_PLANES: u32 = 128;

pub const MAX_PLANES: u32 = MOST_VISPLANES;

/// The most openings of a view: the original's limit, `MAXOPENINGS` of r_plane.c, and what an option
/// may raise it to.
pub const MIN_OPENINGS: u32 = 20_480;

pub const MOST_OPENINGS: u32 = ROOM_OF_OPENINGS;

/// The most WADs of a command.
pub const MAX_WADS: usize = 16;

/// The least and the greatest number of made files.
pub const MIN_COUNT: u32 = 1;

pub const MAX_COUNT: u32 = 32;
