// The number of a texture.

/// The number of a texture: its index among those of TEXTURE1 and then TEXTURE2. On a wall number 0
/// draws nothing.
#[derive(Clone, Copy)]
pub struct TexNo(pub u16);
