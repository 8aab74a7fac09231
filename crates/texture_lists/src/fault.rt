// Why textures are not read.
use art_rules::{Fault, TexRefusal};

/// Why textures are not read: their lumps are refused, a file could not be read, no gap of the zone
/// held a lump or a composite, or memory ran out.
pub type TexFault = Fault<TexRefusal>;
