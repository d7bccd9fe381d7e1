//! Where links come from: nets that dial and listen, and doors on which links come in.
ghost use Rattle.std.specs.Prelude.{◌≡◌, ◌∷◌, [], ℕ, List, Option, Some, IfOk, OnOk, OnErr};
ghost use Rattle.outer_edge.specs.Faults.{Rose, NeverFalls};
ghost use Rattle.outer_edge.specs.Nets.{IsNewLink, IsNewDoor, PastLink, has_fault, is_raised, past_of, RaisedWhere, AddsPast, IsPortOf};

use crate::{Failed, Link};

/// Where links of peers come in. What it gave is handed back to it.
pub trait Door {
    type Link: Link;

    /// The links that were hung up, in order, where the door tells.
    ghost past: { Self → Option (List PastLink) };

    /// How often the outside has failed to give a link. At 2^64 - 1 it stays.
    ghost faults: { Self → ℕ };

    /// How many links were hung up with a fault. At 2^64 - 1 it stays.
    ghost broken: { Self → ℕ };

    /// The next link that comes in. The call may wait for it.
    fn accept(&mut self) -> Result<Self::Link, Failed>
        ensures new_link { IfOk result (λ link. IsNewLink (Self.Link.as_source link) (Self.Link.as_sink link)) }
        ensures no_fault { OnOk result (faults self.new ≡ faults self.old) }

        ensures failed { OnErr result (Rose (faults self.old) (faults self.new)) }
        ensures never_falls { NeverFalls (faults self.old) (faults self.new) }
        ensures none_past { past self.new ≡ past self.old }
        ensures none_broken { broken self.new ≡ broken self.old };

    /// Takes a link back that is done with.
    fn hang_up(&mut self, link: Self::Link)
        ensures broken { RaisedWhere (has_fault (Self.Link.as_source link) (Self.Link.as_sink link))
            (broken self.old) (broken self.new) }
        ensures past { AddsPast (Some (past_of (Self.Link.as_source link) (Self.Link.as_sink link) ∷ []))
            (past self.old) (past self.new) }
        ensures no_fault { faults self.new ≡ faults self.old }
        ensures never_falls { NeverFalls (broken self.old) (broken self.new) };
}

/// Where links to peers are had: by dialing a port, or by listening at it. It is used at one port alone. What it gave is
/// handed back to it.
pub trait Net {
    type Link: Link;

    type Door: Door<Link = Self::Link>;

    /// The links that were hung up, those of the doors that were shut among them, in order, where the net tells.
    ghost past: { Self → Option (List PastLink) };

    /// How often the outside has failed to give a link or a door, and how many doors were shut with such a fault. At
    /// 2^64 - 1 it stays.
    ghost faults: { Self → ℕ };

    /// How many links were hung up with a fault, and how many doors were shut that had such links. At 2^64 - 1 it stays.
    ghost broken: { Self → ℕ };

    /// The port of the first call that named one, if there was any.
    ghost port: { Self → Option ℕ };

    /// A link to what listens at the port. The call may wait for it.
    fn dial(&mut self, number: u16) -> Result<Self::Link, Failed>
        requires { IsPortOf (port self.old) number }
        ensures new_link { IfOk result (λ link. IsNewLink (Self.Link.as_source link) (Self.Link.as_sink link)) }
        ensures no_fault { OnOk result (faults self.new ≡ faults self.old) }

        ensures failed { OnErr result (Rose (faults self.old) (faults self.new)) }
        ensures never_falls { NeverFalls (faults self.old) (faults self.new) }
        ensures none_past { past self.new ≡ past self.old }
        ensures none_broken { broken self.new ≡ broken self.old }
        ensures port { port self.new ≡ Some number };

    /// A door on which the links come in of those that dial the port.
    fn listen(&mut self, number: u16) -> Result<Self::Door, Failed>
        requires { IsPortOf (port self.old) number }
        ensures new_door { IfOk result (λ door. IsNewDoor (Self.Door.faults door) (Self.Door.broken door) (Self.Door.past door)) }
        ensures no_fault { OnOk result (faults self.new ≡ faults self.old) }

        ensures failed { OnErr result (Rose (faults self.old) (faults self.new)) }
        ensures never_falls { NeverFalls (faults self.old) (faults self.new) }
        ensures none_past { past self.new ≡ past self.old }
        ensures none_broken { broken self.new ≡ broken self.old }
        ensures port { port self.new ≡ Some number };

    /// Takes a link back that is done with.
    fn hang_up(&mut self, link: Self::Link)
        ensures broken { RaisedWhere (has_fault (Self.Link.as_source link) (Self.Link.as_sink link))
            (broken self.old) (broken self.new) }
        ensures past { AddsPast (Some (past_of (Self.Link.as_source link) (Self.Link.as_sink link) ∷ []))
            (past self.old) (past self.new) }
        ensures no_fault { faults self.new ≡ faults self.old }
        ensures never_falls { NeverFalls (broken self.old) (broken self.new) }
        ensures port { port self.new ≡ port self.old };

    /// Takes a door back that is done with.
    fn shut(&mut self, door: Self::Door)
        ensures faults { RaisedWhere (is_raised (Self.Door.faults door)) (faults self.old) (faults self.new) }
        ensures broken { RaisedWhere (is_raised (Self.Door.broken door)) (broken self.old) (broken self.new) }
        ensures past { AddsPast (Self.Door.past door) (past self.old) (past self.new) }
        ensures never_falls { NeverFalls (faults self.old) (faults self.new) }
        ensures broken_never_falls { NeverFalls (broken self.old) (broken self.new) }
        ensures port { port self.new ≡ port self.old };
}
