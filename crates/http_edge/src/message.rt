//! Reading a message, whichever it is.
ghost use Rattle.std.specs.Prelude.{◌≡◌, ◌+◌, ◌≤◌, ℕ, List, Result, IfOk, IfErr, OnOk};
ghost use Rattle.outer_edge.specs.Faults.{NeverFalls};
ghost use Rattle.outer_edge.specs.Source.{GaveUpTo};
ghost use Rattle.http_edge.specs.Faults.{HasCause, IfAnswered, IfLinkFault};
ghost use Rattle.http_edge.specs.Heads.{longest_head};
ghost use Rattle.http_edge.specs.Fields.{longest_body};
ghost use Rattle.http_edge.specs.Messages.{Answers};

use crate::EdgeFault;
use crate::incoming::{read_body, read_head};
use outer_edge::Source;
use std::alloc::Global;
use wire_fields::Octets;

// A kind of messages, by what a head of theirs says.
pub(crate) trait MessageKind {
    ghost use Rattle.http_edge.specs.declared.fault.EdgeFault.{EdgeFault as Fault};

    // These bytes say, as a head, that a body of such a length follows, or that fault.
    ghost says: { List ℕ → Result ℕ Fault → Type 0 };

    fn head_says(head: &[u8]) -> Result<u64, EdgeFault>
        ensures says { says head.now result }
        ensures within { IfOk result (λ count. count ≤ longest_body) }
        ensures cause { IfErr result (λ fault. IfLinkFault fault ⊥ (Unit {0})) };
}

// Reads a message of this kind, and gives its body.
pub(crate) fn read_message<K: MessageKind, L: Source>(
    alloc: Global,
    link: &mut L,
) -> Result<Octets, EdgeFault>
    ensures answer { IfAnswered result (Answers K.says (L.left link.old) (L.left link.new) result) }
    ensures cause { IfErr result (λ fault. HasCause fault (L.faults link.old) (L.faults link.new)) }
    ensures no_fault { OnOk result (L.faults link.new ≡ L.faults link.old) }

    ensures gave_some { GaveUpTo L.left L.came link.old link.new (longest_head + longest_body) }
    ensures never_falls { NeverFalls (L.faults link.old) (L.faults link.new) }
    ensures sink_kept { L.as_sink link.new ≡ L.as_sink link.old }
{
    let head = read_head(alloc, link)?;
    let length = K::head_says(&head)?;
    let body = read_body(alloc, link, length as usize)?;
    Ok(Octets::from_vec(body))
}
