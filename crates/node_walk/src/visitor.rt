//! Who is given the events of a walk.
//!
//! Rules: `receiver_rules`.
ghost use Rattle.std.specs.Prelude.{List, [], ◌∷◌};
ghost use Rattle.node_walk.specs.Rules.{Event, FragmentEvent, LeafEvent};
ghost use Rattle.receiver_rules.specs.Receivers.{Receives};

/// Takes the leaves that are entered and the fragments that are seen, one after the other.
///
/// It stands for the lists of events that it may have been given, each with a start: that on which
/// what it makes of the events depends, such as a view and the cells of a canvas.
pub trait Visitor {
    /// What it answers in place of going on.
    type Stop: Drop;

    /// What it makes of the events depends on one of these.
    ghost Start: { Type 0 } = { Unit {0} };

    /// For which starts and lists of events it stands.
    ghost stands: { Self → Start → List Event → Type 0 };

    /// For which starts, lists of events and Stops it has stopped; the last event of the list is
    /// the one that it answered so.
    ghost stopped: { Self → Start → List Event → Self.Stop → Type 0 };

    /// Which events it takes.
    ghost takes: { Self → Event → Type 0 };

    /// A leaf (subsector) is entered.
    ///
    /// The original: `R_Subsector`, r_bsp.c.
    fn leaf(&mut self, leaf: u16) -> Result<(), Self::Stop>
        requires { takes self.old (LeafEvent leaf) }
        ensures { Receives takes stands stopped self.old self.new (LeafEvent leaf ∷ []) result };

    /// Of a seg, the columns from `first` to `last` are seen.
    ///
    /// The original: `R_StoreWallRange`, r_segs.c, as r_bsp.c calls it.
    fn fragment(&mut self, seg: u16, first: u16, last: u16) -> Result<(), Self::Stop>
        requires { takes self.old (FragmentEvent seg first last) }
        ensures { Receives takes stands stopped self.old self.new
            (FragmentEvent seg first last ∷ []) result };
}
