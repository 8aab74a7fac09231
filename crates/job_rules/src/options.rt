// The options of the command line.

/// How many options there are.
pub const OPTION_COUNT: usize = 11;

/// The options, by their words, each with one value. Which job takes which is said in
/// `specs/Options`.
pub const OPTIONS: [&str; OPTION_COUNT] = [
    "tables", "things", "path", "weapon", "format", "skill", "size", "spans", "zone", "planes",
    "openings",
];
