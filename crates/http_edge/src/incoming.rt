//! Bytes that come on a link: a head, and a body of a stated length. Not a byte is read past them.
ghost use Rattle.std.specs.Prelude.{◌≡◌, ◌+◌, ◌-◌, ◌<◌, ◌≤◌, [], ◌∷◌, length, true, IfOk, IfErr, OnOk, OnErr, MatchOption};
ghost use Rattle.outer_edge.specs.Faults.{NeverFalls, Rose};
ghost use Rattle.outer_edge.specs.Source.{Gave, GaveUpTo, GaveOnto, IsAtEnd};
ghost use Rattle.http_edge.specs.Heads.{longest_head, ends_with_empty_line, EndsAtEmptyLine, HasNoEmptyLine};
ghost use Rattle.http_edge.specs.Faults.{HasCause, IsOutside};
ghost use Rattle.http_edge.specs.Incoming.{IsHeadFault, IsBodyFault};
ghost use Rattle.http_edge.specs.declared.fault.EdgeFault.TheVariants.{LinkFault};

use crate::EdgeFault;
use outer_edge::{Failed, Source};
use std::alloc::Global;

// The longest head that is read.
const LONGEST_HEAD: usize = 16_384;

// How many bytes of a body one call of the link is asked for at most.
const ROOM: usize = 4096;

// Reads up to the first empty line. The bytes are asked for one by one, since it is not known how many there are.
pub(crate) fn read_head<L: Source>(alloc: Global, link: &mut L) -> Result<Vec<u8>, EdgeFault>
    ensures gave { IfOk result (λ head. Gave L.left L.came link.old link.new head.items) }
    ensures ends { IfOk result (λ head. EndsAtEmptyLine head.items) }
    ensures fits { IfOk result (λ head. length head.items ≤ longest_head) }
    ensures no_fault { OnOk result (L.faults link.new ≡ L.faults link.old) }

    ensures fault { IfErr result (λ fault. IsHeadFault L.left L.came link.old link.new fault) }
    ensures cause { IfErr result (λ fault. HasCause fault (L.faults link.old) (L.faults link.new)) }

    ensures gave_some { GaveUpTo L.left L.came link.old link.new longest_head }
    ensures never_falls { NeverFalls (L.faults link.old) (L.faults link.new) }
    ensures sink_kept { L.as_sink link.new ≡ L.as_sink link.old }
{
    let mut head = Vec::with_capacity(alloc, LONGEST_HEAD)?;
    while head.len() < LONGEST_HEAD {
        let Some(byte) = read_byte(link)? else {
            return Err(EdgeFault::Ended {
                have: head.len() as u64,
                want: 0,
            });
        };
        head.push(byte).unwrap();
        if ends_with_empty_line(&head) {
            return Ok(head);
        }
    }
    Err(EdgeFault::BadHead)
}

// The next byte, or none at the link's end.
fn read_byte<L: Source>(link: &mut L) -> Result<Option<u8>, EdgeFault>
    ensures gave { IfOk result (λ next. MatchOption next
        (Gave L.left L.came link.old link.new [] × IsAtEnd (L.left link.new))
        (λ byte. Gave L.left L.came link.old link.new (byte ∷ []))) }
    ensures no_fault { OnOk result (L.faults link.new ≡ L.faults link.old) }

    ensures fault { IfErr result (λ fault. fault ≡ LinkFault) }
    ensures failed { OnErr result (Rose (L.faults link.old) (L.faults link.new)) }
    ensures gave_none { OnErr result (Gave L.left L.came link.old link.new []) }
    ensures never_falls { NeverFalls (L.faults link.old) (L.faults link.new) }
    ensures sink_kept { L.as_sink link.new ≡ L.as_sink link.old }
{
    let mut room = [0; 1];
    match link.read(&mut room) {
        Ok(0) => Ok(None),
        Ok(_) => Ok(Some(room[0])),
        Err(Failed) => Err(EdgeFault::LinkFault),
    }
}

// Reads a body of so many bytes. Its memory is taken as a whole, once its first bytes are there.
pub(crate) fn read_body<L: Source>(
    alloc: Global,
    link: &mut L,
    count: usize,
) -> Result<Vec<u8>, EdgeFault>
    ensures gave { IfOk result (λ body. Gave L.left L.came link.old link.new body.items) }
    ensures whole { IfOk result (λ body. length body.items ≡ count) }
    ensures no_fault { OnOk result (L.faults link.new ≡ L.faults link.old) }

    ensures fault { IfErr result (λ fault. IsBodyFault L.left L.came link.old link.new count fault) }
    ensures cause { IfErr result (λ fault. HasCause fault (L.faults link.old) (L.faults link.new)) }

    ensures gave_some { GaveUpTo L.left L.came link.old link.new count }
    ensures never_falls { NeverFalls (L.faults link.old) (L.faults link.new) }
    ensures sink_kept { L.as_sink link.new ≡ L.as_sink link.old }
{
    let mut body = Vec::new(alloc);
    while body.len() < count {
        if read_piece(link, &mut body, count)? == 0 {
            return Err(EdgeFault::Ended {
                have: body.len() as u64,
                want: count as u64,
            });
        }
    }
    Ok(body)
}

// Reads once, and puts what came at the end of the body. 0 says that the link is at its end.
fn read_piece<L: Source>(link: &mut L, body: &mut Vec<u8>, count: usize) -> Result<usize, EdgeFault>
    requires { length body.old.items < count }

    ensures gave { IfOk result (GaveOnto L.left L.came link.old link.new body.old.items body.new.items) }
    ensures within { OnOk result (length body.new.items ≤ count) }
    ensures ended { IfOk result (λ read. read ≡ 0 → IsAtEnd (L.left link.new)) }
    ensures no_fault { OnOk result (L.faults link.new ≡ L.faults link.old) }

    ensures fault { IfErr result (λ fault. IsOutside fault) }
    ensures cause { IfErr result (λ fault. HasCause fault (L.faults link.old) (L.faults link.new)) }

    ensures gave_some { GaveUpTo L.left L.came link.old link.new (count - length body.old.items) }
    ensures never_falls { NeverFalls (L.faults link.old) (L.faults link.new) }
    ensures sink_kept { L.as_sink link.new ≡ L.as_sink link.old }
{
    let mut buffer = [0; ROOM];
    let missing = count - body.len();
    let room = &mut buffer[..missing.min(ROOM)];
    let Ok(read) = link.read(room) else {
        return Err(EdgeFault::LinkFault);
    };
    if read > 0 {
        body.reserve_exact(missing)?;
    }
    body.extend_from_slice(&room[..read])?;
    Ok(read)
}

#[tactic(auto, unfolding(crate::specs::Heads::ends_with_empty_line))]
fn ends_with_empty_line(bytes: &[u8]) -> bool
    ensures { result ≡ ends_with_empty_line bytes.now }
{
    bytes.ends_with(b"\n\n") || bytes.ends_with(b"\n\r\n")
}
