// The numbers by which the program tells refusals: a hundred for each group.

pub const CODE_TABLES_LENGTH: u64 = 101;

pub const CODE_SINE: u64 = 102;

pub const CODE_TANGENT: u64 = 103;

pub const CODE_ANGLE: u64 = 104;

pub const CODE_FIELD_OF_VIEW: u64 = 105;

/// The groups of the three tables of text, of which each has the codes behind these numbers.
pub const GROUP_THINGS: u64 = 200;

pub const GROUP_PATH: u64 = 300;

pub const GROUP_WEAPONS: u64 = 1000;

pub const CODE_NOT_WAD: u64 = 401;

pub const CODE_SHORT: u64 = 402;

pub const CODE_ENTRY: u64 = 403;

pub const CODE_TOO_MANY: u64 = 404;

pub const CODE_COLORMAP: u64 = 501;

pub const CODE_PLAYPAL: u64 = 502;

pub const CODE_NO_MAP: u64 = 601;

pub const CODE_MAP_SIZE: u64 = 602;

pub const CODE_NO_LEAF: u64 = 603;

pub const CODE_INDEX: u64 = 604;

pub const CODE_EMPTY_LEAF: u64 = 605;

pub const CODE_NODE_TWICE: u64 = 606;

pub const CODE_TOO_DEEP: u64 = 607;

pub const CODE_PNAMES: u64 = 701;

pub const CODE_TEXTURE_LUMP: u64 = 702;

pub const CODE_TEXTURE_ENTRY: u64 = 703;

pub const CODE_MISSING_PATCH: u64 = 704;

pub const CODE_TOO_BIG: u64 = 705;

pub const CODE_NO_FRAME: u64 = 801;

pub const CODE_MISSING_ROTATION: u64 = 802;

pub const CODE_BAD_PATCH: u64 = 803;

pub const CODE_SIDE_TEXTURE: u64 = 901;

pub const CODE_SKY_TEXTURE: u64 = 902;

pub const CODE_SECTOR_FLAT: u64 = 903;

pub const CODE_SHADOW: u64 = 904;

pub const CODE_MIDDLE: u64 = 905;

pub const CODE_FLAT_NAME: u64 = 906;

pub const CODE_MARK_NAME: u64 = 907;

pub const CODE_TRIM_TOO_MANY: u64 = 908;

pub const CODE_TRIM_TOO_LARGE: u64 = 909;

pub const CODE_WEAPON_NO_FRAME: u64 = 1011;

pub const CODE_WEAPON_ROTATION: u64 = 1012;

pub const CODE_WEAPON_PATCH: u64 = 1013;
