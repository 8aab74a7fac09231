// The lumps of colours, by name.
//
// Rules: `scene_rules`, Scenes. The original: `R_InitColormaps`, r_data.c.
ghost use Rattle.std.specs.Prelude.{◌≡◌, ◌<◌, ◌≤◌, length, Ok, Err, IfOk, IfSome, MatchResult, option_map};
ghost use Rattle.job_files.specs.Rules.{PALETTE_SIZE, colormap_of, long_lump, lump_at, playpal_of};

use art_rules::Name8;
use lump_cache::{Directory, LumpNo};
use scene_rules::{ArtRefusal, COLORMAP, COLORMAP_SIZE, PALETTE_SIZE, PLAYPAL};

/// The lump COLORMAP: the last of that name. Takes no memory.
///
/// Errors: `Colormap` exactly where there is none, or it has less than 8192 bytes.
///
/// The original: `R_InitColormaps`, r_data.c, which ends the program where there is none.
pub fn find_colormap(dir: &Directory) -> Result<LumpNo, ArtRefusal>
    ensures lump { MatchResult result (λ lump. colormap_of dir.now.lumps ≡ Ok lump.0) (λ refusal.
        colormap_of dir.now.lumps ≡ Err refusal) }
    ensures there { IfOk result (λ lump. lump.0 < length dir.now.lumps) }
{
    find_long(dir, &Name8::from_bytes(COLORMAP), COLORMAP_SIZE).ok_or(ArtRefusal::Colormap)
}

/// The lump PLAYPAL: the last of that name. Takes no memory.
///
/// Errors: `Playpal` exactly where there is none, or it has less than 768 bytes.
///
/// The original: `D_Display`, d_main.c, which asks for it by name.
pub fn find_playpal(dir: &Directory) -> Result<LumpNo, ArtRefusal>
    ensures lump { MatchResult result (λ lump. playpal_of dir.now.lumps ≡ Ok lump.0) (λ refusal.
        playpal_of dir.now.lumps ≡ Err refusal) }
    ensures there { IfOk result (λ lump. lump.0 < length dir.now.lumps) }
    ensures long { IfOk result (λ lump. PALETTE_SIZE ≤ (lump_at dir.now.lumps lump.0).size) }
{
    find_long(dir, &Name8::from_bytes(PLAYPAL), PALETTE_SIZE).ok_or(ArtRefusal::Playpal)
}

// The last lump of a name, where it has at least so many bytes.
fn find_long(dir: &Directory, name: &Name8, size: u32) -> Option<LumpNo>
    ensures found { option_map (λ lump. lump.0) result ≡ long_lump dir.now.lumps name.now size }
    ensures there { IfSome result (λ lump. lump.0 < length dir.now.lumps) }
    ensures long { IfSome result (λ lump. size ≤ (lump_at dir.now.lumps lump.0).size) }
{
    let lump = dir.last(name)?;
    if dir.size(lump) >= size {
        Some(lump)
    } else {
        None
    }
}
