//! Reading a group to its end, without recursion.
ghost use Rattle.std.specs.Prelude.{◌≡◌, ◌≤◌, length, take, drop, MatchResult};
ghost use Rattle.wire_format.specs.Fields.{IsHeader};
ghost use Rattle.wire_format.specs.Faults.{IsFirstFault};
ghost use Rattle.wire_format.specs.Groups.{IsGroupEnd};

use crate::fault::WireReason;
use crate::open_groups::{Nesting, OpenGroups, nest};
use crate::token::{Token, TokenFault};

// Where the content of a group ends, and where the group does.
#[derive(Debug, Clone, Copy, Drop)]
pub(crate) struct GroupEnd {
    pub(crate) content: usize,
    pub(crate) len: usize,
}

// The end of the group whose start is that many bytes. Each token is looked at once.
pub(crate) fn group_end(bytes: &[u8], group: u32, start: usize) -> Result<GroupEnd, TokenFault>
    requires inside { start ≤ length bytes.now }
    requires is_start { IsHeader (take start bytes.now) group 3 }
    ensures { MatchResult result
        (λ end. IsGroupEnd bytes.now group start end.content end.len)
        (λ fault. IsFirstFault bytes.now fault.reason fault.place) }
{
    let mut groups = OpenGroups::new();
    groups.push(group);
    let mut at = start;
    while at < bytes.len() {
        let token = match Token::read(&bytes[at..]) {
            Ok(token) => token,
            Err(fault) => {
                return Err(TokenFault {
                    place: at + fault.place,
                    reason: fault.reason,
                });
            }
        };
        let reason = match nest(&mut groups, &token) {
            Nesting::Fits if groups.is_empty() => {
                return Ok(GroupEnd {
                    content: at,
                    len: at + token.len,
                });
            }
            Nesting::Fits => {
                at += token.len;
                continue;
            }
            Nesting::Stray => WireReason::StrayEnd,
            Nesting::TooDeep => WireReason::TooDeep,
        };
        return Err(TokenFault { place: at, reason });
    }
    Err(TokenFault {
        place: at,
        reason: WireReason::OpenGroup,
    })
}
