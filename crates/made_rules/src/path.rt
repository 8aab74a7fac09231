// The numbers of the paths.

/// The views of a path for each step of the number that names the files.
pub const VIEWS_PER_NUMBER: u32 = 3;

/// The width and height of a room, two by two cells, in map units.
pub const ROOM_SIZE: u32 = 256;

/// The map units that a view stays away from the west and the south of its room.
pub const WALL_DISTANCE: u32 = 40;

/// The places from west to east of a room that a view may have, a map unit apart.
pub const FREE_STEPS: u32 = 176;

/// The rooms to the east from view to view.
pub const EAST_ROOMS: u32 = 1;

/// The map units to the east from view to view, within the room.
pub const EAST_STEPS: u32 = 37;

/// The rooms to the north from view to view.
pub const NORTH_ROOMS: u32 = 7;

/// The map units to the north from view to view, within the room.
pub const NORTH_STEPS: u32 = 53;

/// The angle (BAM) from view to view, a 15th of a turn.
pub const ANGLE_STEP: u32 = 286_331_153;
