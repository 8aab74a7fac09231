// New tags for blocks that are live.
//
// Rules: `specs/Caches`. The original: z_zone.c.
ghost use Rattle.std.specs.Prelude.{◌≡◌, ◌<◌, Some, option_map};
ghost use Rattle.lump_cache.specs.Rules.{Cache, IsSound, Level, Static, holding_of, owner_at, slot_count};
ghost use Rattle.lump_cache.specs.Caches.{with_tag_unless_static, release_heap, is_static_tag};

use zone_heap::{Slot, SlotKind, Tag, Zone};

/// Whether the tag pins a block for the whole run.
fn is_static(tag: Tag) -> bool
    ensures { result ≡ is_static_tag tag }
{
    match tag {
        Tag::Static => true,
        Tag::Level => false,
        Tag::Cache => false,
    }
}

/// Gives a block another tag, unless it is pinned for the whole run. A tag that the block has
/// already is not written again.
pub fn retag<K: SlotKind>(zone: &mut Zone, slot: Slot<K>, current: Tag, tag: Tag)
    requires in_range { slot.number < slot_count zone.old K.CODE }
    requires current { option_map (λ h. h.tag)
        (holding_of (owner_at K.CODE slot.number) zone.old.blocks) ≡ Some current }
    requires sound { IsSound zone.old }
    ensures zone { zone.new ≡ with_tag_unless_static (owner_at K.CODE slot.number) tag zone.old }
    ensures sound { IsSound zone.new }
{
    if is_static(current) {
        return;
    }
    if current != tag {
        zone.change_tag(slot, tag);
    }
}

/// Makes a live block purgeable, unless it is pinned for the whole run.
pub fn release_block<K: SlotKind>(zone: &mut Zone, slot: Slot<K>)
    requires in_range { slot.number < slot_count zone.old K.CODE }
    requires sound { IsSound zone.old }
    ensures zone { zone.new ≡ release_heap (owner_at K.CODE slot.number) zone.old }
    ensures sound { IsSound zone.new }
{
    if let Some(current) = zone.tag(slot) {
        retag(zone, slot, current, Tag::Cache);
    }
}
