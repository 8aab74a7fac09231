// The entries of a view in the order in which they are drawn.

ghost use Rattle.std.specs.Prelude.{◌≡◌};
ghost use Rattle.std.specs.Iterator.{YieldsFirst, item_count};

use picture_rules::SpriteEntry;
use std::marker::Model;

/// The entries that are still to be drawn, the first to be drawn first.
#[derive(Drop)]
pub struct SortedSprites<'a> {
    rest: &'a [SpriteEntry],
}

impl<'a> Model for SortedSprites<'a> {
    ghost use Rattle.std.specs.Prelude.{List};
    ghost use Rattle.picture_rules.specs.declared.sprite.SpriteEntry.{SpriteEntry};

    ghost Value = { List SpriteEntry };

    ghost view = { λ s. s.rest.now };
}

impl<'a> SortedSprites<'a> {
    // These entries, in this order.
    pub(crate) fn new(rest: &'a [SpriteEntry]) -> SortedSprites<'a>
        ensures { result ≡ rest.now }
    {
        SortedSprites { rest }
    }
}

impl<'a> Iterator for SortedSprites<'a> {
    type Item = SpriteEntry;

    ghost next_gives = { YieldsFirst (λ s. s) };

    ghost remaining = { item_count (λ s. s) };

    fn next(&mut self) -> Option<SpriteEntry> {
        match self.rest.split_first() {
            None => None,
            Some((first, rest)) => {
                self.rest = rest;
                Some(*first)
            }
        }
    }
}
