// Why there is no book.
use art_rules::{Fault, SpriteRefusal};

/// Why there is no book: the sprite lumps are refused, a file could not be read, no gap of the zone
/// held a lump, or memory ran out.
pub type SpriteFault = Fault<SpriteRefusal>;
