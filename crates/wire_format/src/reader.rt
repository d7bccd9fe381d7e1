//! Reading the fields of a message one by one.
ghost use Rattle.std.specs.Prelude.{◌≡◌, ◌≢◌, ◌<◌, ◌≤◌, [], None, Some, Err, length, take, MatchResult};
ghost use Rattle.wire_format.specs.declared.fault.WireFault.{WireFault as Fault};
ghost use Rattle.wire_format.specs.Fields.{IsHeader, IsFieldAt};
ghost use Rattle.wire_format.specs.Tokens.{IsTokenAt};
ghost use Rattle.wire_format.specs.Faults.{IsFirstFault};
ghost use Rattle.wire_format.specs.Readers.{Reading, IsNext};

use crate::fault::{WireFault, WireReason};
use crate::field::{Field, Payload};
use crate::group::group_end;
use crate::token::{Body, Token, TokenFault};
use std::marker::Model;

/// Reads the fields of a message one by one (Protocol Buffers, Encoding, Message Structure).
///
/// Places count from the front of the bytes that it was given.
#[derive(Debug, Drop)]
pub struct FieldReader<'a> {
    bytes: &'a [u8],
    at: usize,
    fault: Option<WireFault>,
}

impl<'a> Model for FieldReader<'a> {
    ghost use Rattle.std.specs.Prelude.{◌≤◌, length};
    ghost use Rattle.wire_format.specs.Readers.{Reading};

    ghost Value = { Reading };

    ghost view = { λ r. record { bytes = r.bytes.now; at = r.at; fault = r.fault } };

    ghost invariant = { λ r. r.at ≤ length r.bytes.now };
}

// A field at the front of some bytes, and how many bytes it has.
#[derive(Debug, Clone, Copy, Drop)]
struct Found<'a> {
    number: u32,
    payload: Payload<'a>,
    len: usize,
}

impl<'a> FieldReader<'a> {
    /// A reader of these bytes, at their front.
    pub fn new(bytes: &'a [u8]) -> FieldReader<'a>
        ensures { result ≡ record { bytes = bytes.now; at = 0; fault = None } }
    {
        FieldReader {
            bytes,
            at: 0,
            fault: None,
        }
    }

    /// How many bytes have been read: where the next field begins.
    pub fn place(&self) -> usize
        ensures { result ≡ self.now.at }
    {
        self.at
    }

    /// The next whole field, or `None` at the end.
    ///
    /// It takes constant time for a field that is no group, and for a group time linear in the number of its fields
    /// of all depths. No content is copied. It refuses bytes that are no list of fields at the first place that is at
    /// fault, and answers the same from then on.
    pub fn next(&mut self) -> Result<Option<Field<'a>>, WireFault>
        ensures first { self.old.fault ≡ None → IsNext self.old result self.new }
        ensures again { (fault : Fault) → self.old.fault ≡ Some fault →
            (result ≡ Err fault) × (self.new ≡ self.old) }
    {
        if let Some(fault) = self.fault {
            return Err(fault);
        }
        if self.at == self.bytes.len() {
            return Ok(None);
        }
        match read_one(&self.bytes[self.at..]) {
            Ok(found) => {
                let field = Field {
                    number: found.number,
                    at: self.at,
                    payload: found.payload,
                };
                self.at += found.len;
                Ok(Some(field))
            }
            Err(fault) => {
                let fault = WireFault {
                    at: (self.at + fault.place) as u64,
                    reason: fault.reason,
                };
                self.fault = Some(fault);
                Err(fault)
            }
        }
    }
}

// The field at the front of some bytes.
fn read_one<'a>(bytes: &'a [u8]) -> Result<Found<'a>, TokenFault>
    requires { 0 < length bytes.now }
    ensures { MatchResult result
        (λ found. IsFieldAt bytes.now found.len found.number found.payload)
        (λ fault. IsFirstFault bytes.now fault.reason fault.place) }
{
    let token = first_token(bytes)?;
    match token.body {
        Body::Plain(payload) => Ok(Found {
            number: token.number,
            payload,
            len: token.len,
        }),
        Body::Start => read_group(bytes, token.number, token.len),
        Body::End => Err(TokenFault {
            place: 0,
            reason: WireReason::StrayEnd,
        }),
    }
}

// The token at the front of some bytes, before which no group is open.
fn first_token<'a>(bytes: &'a [u8]) -> Result<Token<'a>, TokenFault>
    requires { 0 < length bytes.now }
    ensures { MatchResult result
        (λ token. IsTokenAt bytes.now token.len token.number token.body)
        (λ fault. IsFirstFault bytes.now fault.reason fault.place) }
{
    match Token::read(bytes) {
        Ok(token) => Ok(token),
        Err(fault) => Err(fault),
    }
}

// The group at the front of some bytes, whose start is known.
fn read_group<'a>(bytes: &'a [u8], number: u32, start: usize) -> Result<Found<'a>, TokenFault>
    requires inside { start ≤ length bytes.now }
    requires is_start { IsHeader (take start bytes.now) number 3 }
    ensures { MatchResult result
        (λ found. IsFieldAt bytes.now found.len found.number found.payload)
        (λ fault. IsFirstFault bytes.now fault.reason fault.place) }
{
    let end = group_end(bytes, number, start)?;
    Ok(Found {
        number,
        payload: Payload::Group(&bytes[start..end.content]),
        len: end.len,
    })
}
