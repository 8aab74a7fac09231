// What is open of each column of a frame, and the rows of the view: this crate's Windows.
ghost use Rattle.std.specs.Prelude.{◌≡◌, ◌≢◌, ◌<◌, ◌≤◌, ◌+◌, ◌-◌, ℕ, length, replicate};
ghost use Rattle.picture_rules.specs.Words.{FRAME_HEIGHT, FRAME_WIDTH, open_clip};
ghost use Rattle.wall_columns.specs.Windows.{ceilings_in, floors_in, window_at, with_window, IsClipIn};

use picture_rules::{ColumnClip, FRAME_WIDTH};
use std::marker::Model;

/// What is open of each column of a frame, and the rows of the view. Contracts see `WindowsView`.
///
/// The original: `ceilingclip` and `floorclip`, r_plane.c.
#[derive(Drop)]
pub struct Windows {
    ceiling_clips: [i32; FRAME_WIDTH as usize],
    floor_clips: [i32; FRAME_WIDTH as usize],
    height: u16,
}

impl Model for Windows {
    ghost use Rattle.wall_columns.specs.Windows.{WindowsView, windows_view};
    ghost use Rattle.wall_columns.specs.Walls.{AreClips};

    ghost Value = { WindowsView };

    ghost view = { λ w. windows_view w.ceiling_clips w.floor_clips w.height };

    ghost invariant = { λ w. AreClips w.height w.ceiling_clips w.floor_clips };
}

impl Windows {
    /// The windows of a view without rows.
    #[tactic(auto, using(crate::proofs::PartLemmas::opened))]
    pub fn new() -> Windows {
        Windows {
            ceiling_clips: same_rows(0),
            floor_clips: same_rows(0),
            height: 0,
        }
    }

    /// Opens each column of a view of `height` rows.
    #[tactic(auto, using(crate::proofs::PartLemmas::opened), unfolding(crate::specs::Windows::window_at, picture_rules::specs::wall::Clips::open_clip))]
    pub fn open(&mut self, height: u16)
        requires { height ≤ FRAME_HEIGHT }
        ensures height { self.new.height ≡ height }
        ensures windows { (x : ℕ) → x < FRAME_WIDTH → window_at self.new x ≡ open_clip height }
    {
        self.ceiling_clips.fill(-1);
        self.floor_clips.fill(height as i32);
        self.height = height;
    }

    /// The rows of the view.
    #[tactic(auto, using(crate::proofs::PartLemmas::narrowed), unfolding(crate::specs::Windows::window_at))]
    pub fn height(&self) -> u16
        ensures value { result ≡ self.now.height }
        ensures most { self.now.height ≤ FRAME_HEIGHT }
        ensures clips { (x : ℕ) → x < FRAME_WIDTH →
            IsClipIn self.now.height (window_at self.now x) }
    {
        self.height
    }

    /// The ceiling clips of columns `first` to `last` of the frame.
    pub fn ceilings(&self, first: u16, last: u16) -> &[i32]
        requires ordered { first ≤ last }
        requires within { last < FRAME_WIDTH }
        ensures value { result.now ≡ ceilings_in self.now first last }
        ensures length { length result.now ≡ last + 1 - first }
    {
        &self.ceiling_clips[first as usize..last as usize + 1]
    }

    /// The floor clips of columns `first` to `last` of the frame.
    pub fn floors(&self, first: u16, last: u16) -> &[i32]
        requires ordered { first ≤ last }
        requires within { last < FRAME_WIDTH }
        ensures value { result.now ≡ floors_in self.now first last }
        ensures length { length result.now ≡ last + 1 - first }
    {
        &self.floor_clips[first as usize..last as usize + 1]
    }

    /// What is open of column `x` of the frame.
    #[inline(always)]
    #[tactic(auto, unfolding(crate::specs::Windows::window_at))]
    pub fn clip(&self, x: u16) -> ColumnClip
        requires { x < FRAME_WIDTH }
        ensures value { result ≡ window_at self.now x }
        ensures rows { IsClipIn self.now.height result }
        ensures most { self.now.height ≤ FRAME_HEIGHT }
    {
        ColumnClip {
            ceiling_clip: self.ceiling_clips[x as usize],
            floor_clip: self.floor_clips[x as usize],
        }
    }

    /// Leaves this open of column `x` of the frame.
    #[inline(always)]
    #[tactic(auto, using(crate::proofs::PartLemmas::narrowed), unfolding(crate::specs::Windows::window_at, crate::specs::Windows::with_window))]
    pub fn narrow(&mut self, x: u16, clip: ColumnClip)
        requires column { x < FRAME_WIDTH }
        requires rows { IsClipIn self.old.height clip }
        ensures value { self.new ≡ with_window self.old x clip }
        ensures own { window_at self.new x ≡ clip }
        ensures other { (y : ℕ) → y ≢ x → window_at self.new y ≡ window_at self.old y }
    {
        self.ceiling_clips[x as usize] = clip.ceiling_clip;
        self.floor_clips[x as usize] = clip.floor_clip;
    }
}

// The same row for each column of a frame.
fn same_rows(row: i32) -> [i32; FRAME_WIDTH as usize]
    ensures { result ≡ replicate FRAME_WIDTH row }
{
    [row; FRAME_WIDTH as usize]
}
