// Typed slot numbers: a slot of one kind never names a block of the other.
ghost use Rattle.std.specs.Prelude.{◌≡◌, ◌≤◌, ℕ};
ghost use Rattle.std.proofs.Common.{lit≤};

use std::marker::PhantomData;

/// A kind of slot, by its code.
pub trait SlotKind {
    ghost CODE: { ℕ };

    /// There are two kinds.
    ghost is_known: { CODE ≤ 1 };

    const CODE: u8;
}

/// The slots of lumps.
#[derive(Clone, Copy)]
pub struct LumpKind;

/// The slots of composites.
#[derive(Clone, Copy)]
pub struct CompositeKind;

impl SlotKind for LumpKind {
    ghost CODE = { 0 };

    ghost is_known = { lit≤ tt };

    const CODE: u8 = 0;
}

impl SlotKind for CompositeKind {
    ghost CODE = { 1 };

    ghost is_known = { lit≤ tt };

    const CODE: u8 = 1;
}

/// A slot's number, typed by its kind.
#[derive_where(Clone, Copy)]
pub struct Slot<K> {
    pub number: u32,
    kind: PhantomData<K>,
}

impl<K> Slot<K> {
    /// The slot of a number.
    pub fn new(number: u32) -> Self
        ensures { result.number ≡ number }
    {
        Slot {
            number,
            kind: PhantomData,
        }
    }

    /// The slot's number.
    #[inline(always)]
    pub fn number(self) -> u32
        ensures { result ≡ self.number }
    {
        self.number
    }
}
