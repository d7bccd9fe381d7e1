//! Walking over the tokens of bytes that come in pieces.
ghost use Rattle.std.specs.Prelude.{◌≡◌, [], MatchResult, OnOk};
ghost use Rattle.wire_format.specs.Fields.{AreFields};
ghost use Rattle.wire_format.specs.Faults.{IsFault};
ghost use Rattle.wire_format.specs.Walks.{IsWalk, IsWalkedOut, IsStayingFault, MayGoOn};

use crate::fault::{WireFault, WireReason};
use crate::open_groups::{Nesting, OpenGroups, nest};
use crate::token::Token;
use std::marker::Model;

/// A walk over the tokens of bytes that come in pieces: how far it has come, and the groups that are open there.
///
/// It owns no bytes: each call is given all that have come so far.
#[derive(Debug, Drop)]
pub struct Walk {
    at: usize,
    groups: OpenGroups,
}

impl Model for Walk {
    ghost use Rattle.wire_format.specs.Walks.{Walked};

    ghost Value = { Walked };

    ghost view = { λ walk. record { at = walk.at; numbers = walk.groups.items } };
}

impl Walk {
    /// A walk at the front of some bytes.
    pub fn new() -> Walk
        ensures { result ≡ record { at = 0; numbers = [] } }
    {
        Walk {
            at: 0,
            groups: OpenGroups::new(),
        }
    }

    /// Goes on as far as there are whole tokens, or tells a fault that no bytes to come can mend.
    ///
    /// It takes time linear in the number of tokens that were not whole before, and looks into no content of bytes.
    pub fn advance(&mut self, bytes: &[u8]) -> Result<(), WireFault>
        requires { IsWalk self.old bytes.now }
        ensures walked { MatchResult result
            (λ _. IsWalkedOut self.new bytes.now)
            (λ fault. IsStayingFault bytes.now fault.reason fault.at) }
        ensures may_go_on { OnOk result (MayGoOn bytes.now) }
    {
        while self.at < bytes.len() {
            let token = match Token::read(&bytes[self.at..]) {
                Ok(token) => token,
                Err(fault) if fault.reason == WireReason::Cut => return Ok(()),
                Err(fault) => {
                    return Err(WireFault {
                        at: (self.at + fault.place) as u64,
                        reason: fault.reason,
                    });
                }
            };
            let reason = match nest(&mut self.groups, &token) {
                Nesting::Fits => {
                    self.at += token.len;
                    continue;
                }
                Nesting::Stray => WireReason::StrayEnd,
                Nesting::TooDeep => WireReason::TooDeep,
            };
            return Err(WireFault {
                at: self.at as u64,
                reason,
            });
        }
        Ok(())
    }

    /// The fault of these bytes where no more of them come, if they have one.
    pub fn end(&self, bytes: &[u8]) -> Result<(), WireFault>
        requires { IsWalkedOut self.now bytes.now }
        ensures { MatchResult result
            (λ _. AreFields bytes.now)
            (λ fault. IsFault bytes.now fault.reason fault.at) }
    {
        let reason = if self.at < bytes.len() {
            WireReason::Cut
        } else if !self.groups.is_empty() {
            WireReason::OpenGroup
        } else {
            return Ok(());
        };
        Err(WireFault {
            at: bytes.len() as u64,
            reason,
        })
    }
}
