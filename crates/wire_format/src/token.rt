//! Tokens: a header with what follows it up to the next header.
ghost use Rattle.std.specs.Prelude.{◌≡◌, ◌≢◌, ◌+◌, ◌^◌, ◌<◌, ◌≤◌, length, take, drop, MatchResult};
ghost use Rattle.wire_format.specs.Fields.{IsHeader};
ghost use Rattle.wire_format.specs.Faults.{IsTokenFault};
ghost use Rattle.wire_format.specs.Tokens.{IsTokenAt, IsPlainAt, IsBodyFault, IsFaultOf};

use crate::fault::WireReason;
use crate::field::Payload;
use crate::varint::{Varint, VarintFault};
use byteorder::{ByteOrder, LittleEndian};

// The greatest number of a field.
const LAST_NUMBER: u64 = 536_870_911;

// What a header begins: a field that is no group, or the start or the end of a group.
#[derive(Debug, Clone, Copy, Drop)]
pub(crate) enum Body<'a> {
    Plain(Payload<'a>),
    Start,
    End,
}

// A header with what follows it, and how many bytes they have.
#[derive(Debug, Clone, Copy, Drop)]
pub(crate) struct Token<'a> {
    pub(crate) number: u32,
    pub(crate) body: Body<'a>,
    pub(crate) len: usize,
}

// Why no token stands at the front of some bytes, and at which place of them.
#[derive(Debug, Clone, Copy, Drop)]
pub(crate) struct TokenFault {
    pub(crate) place: usize,
    pub(crate) reason: WireReason,
}

#[derive(Debug, Clone, Copy, Drop)]
struct Header {
    number: u32,
    kind: u64,
    len: usize,
}

#[derive(Debug, Clone, Copy, Drop)]
struct Plain<'a> {
    payload: Payload<'a>,
    len: usize,
}

impl<'a> Token<'a> {
    // The token at the front of some bytes. It looks at its header and its length, and not at its content.
    pub(crate) fn read(bytes: &'a [u8]) -> Result<Token<'a>, TokenFault>
        ensures { MatchResult result
            (λ token. IsTokenAt bytes.now token.len token.number token.body)
            (λ fault. IsTokenFault bytes.now fault.reason fault.place) }
    {
        let header = read_header(bytes)?;
        let body = match header.kind {
            3 => Body::Start,
            4 => Body::End,
            kind => return read_field(bytes, header.number, kind, header.len),
        };
        Ok(Token {
            number: header.number,
            body,
            len: header.len,
        })
    }
}

// The token of a field that is no group, whose header is known.
fn read_field<'a>(
    bytes: &'a [u8],
    number: u32,
    kind: u64,
    header: usize,
) -> Result<Token<'a>, TokenFault>
    requires inside { header ≤ length bytes.now }
    requires is_header { IsHeader (take header bytes.now) number kind }
    requires is_plain { (kind < 6) × (kind ≢ 3) × (kind ≢ 4) }
    ensures { MatchResult result
        (λ token. IsTokenAt bytes.now token.len token.number token.body)
        (λ fault. IsTokenFault bytes.now fault.reason fault.place) }
{
    match read_plain(kind, &bytes[header..]) {
        Ok(plain) => Ok(Token {
            number,
            body: Body::Plain(plain.payload),
            len: header + plain.len,
        }),
        Err(fault) => Err(fault_of(fault, bytes.len(), header)),
    }
}

// The fault of a varint, whose bytes begin at a place and end at another one.
fn fault_of(fault: VarintFault, end: usize, begin: usize) -> TokenFault
    requires { begin + 9 < 2 ^ 64 }
    ensures { IsFaultOf fault end begin result.reason result.place }
{
    match fault {
        VarintFault::Cut => TokenFault {
            place: end,
            reason: WireReason::Cut,
        },
        VarintFault::Long => TokenFault {
            place: begin + 9,
            reason: WireReason::LongVarint,
        },
    }
}

// The header at the front of some bytes.
fn read_header(bytes: &[u8]) -> Result<Header, TokenFault>
    ensures { MatchResult result
        (λ header. (header.len ≤ length bytes.now)
        × IsHeader (take header.len bytes.now) header.number header.kind × (header.kind < 6))
        (λ fault. IsTokenFault bytes.now fault.reason fault.place) }
{
    let varint = match Varint::read(bytes) {
        Ok(varint) => varint,
        Err(fault) => return Err(fault_of(fault, bytes.len(), 0)),
    };
    let number = varint.value / 8;
    let kind = varint.value % 8;
    let reason = if number == 0 {
        WireReason::ZeroNumber
    } else if number > LAST_NUMBER {
        WireReason::BigNumber
    } else if kind > 5 {
        WireReason::BadKind
    } else {
        return Ok(Header {
            number: number as u32,
            kind,
            len: varint.len,
        });
    };
    Err(TokenFault { place: 0, reason })
}

// What follows a header of a kind, which is that of a field that is no group.
fn read_plain<'a>(kind: u64, bytes: &'a [u8]) -> Result<Plain<'a>, VarintFault>
    requires { (kind < 6) × (kind ≢ 3) × (kind ≢ 4) }
    ensures { MatchResult result
        (λ plain. IsPlainAt kind bytes.now plain.len plain.payload)
        (λ fault. IsBodyFault kind bytes.now fault) }
{
    match kind {
        0 => read_varint(bytes),
        1 => read_eight(bytes),
        2 => read_delimited(bytes),
        _ => read_four(bytes),
    }
}

fn read_varint<'a>(bytes: &[u8]) -> Result<Plain<'a>, VarintFault>
    ensures { MatchResult result
        (λ plain. IsPlainAt 0 bytes.now plain.len plain.payload)
        (λ fault. IsBodyFault 0 bytes.now fault) }
{
    let varint = Varint::read(bytes)?;
    Ok(Plain {
        payload: Payload::Varint(varint.value),
        len: varint.len,
    })
}

fn read_eight<'a>(bytes: &[u8]) -> Result<Plain<'a>, VarintFault>
    ensures { MatchResult result
        (λ plain. IsPlainAt 1 bytes.now plain.len plain.payload)
        (λ fault. IsBodyFault 1 bytes.now fault) }
{
    if bytes.len() < 8 {
        return Err(VarintFault::Cut);
    }
    Ok(Plain {
        payload: Payload::Eight(LittleEndian::read_u64(&bytes[..8])),
        len: 8,
    })
}

fn read_four<'a>(bytes: &[u8]) -> Result<Plain<'a>, VarintFault>
    ensures { MatchResult result
        (λ plain. IsPlainAt 5 bytes.now plain.len plain.payload)
        (λ fault. IsBodyFault 5 bytes.now fault) }
{
    if bytes.len() < 4 {
        return Err(VarintFault::Cut);
    }
    Ok(Plain {
        payload: Payload::Four(LittleEndian::read_u32(&bytes[..4])),
        len: 4,
    })
}

fn read_delimited<'a>(bytes: &'a [u8]) -> Result<Plain<'a>, VarintFault>
    ensures { MatchResult result
        (λ plain. IsPlainAt 2 bytes.now plain.len plain.payload)
        (λ fault. IsBodyFault 2 bytes.now fault) }
{
    let count = Varint::read(bytes)?;
    let rest = &bytes[count.len..];
    if count.value > rest.len() as u64 {
        return Err(VarintFault::Cut);
    }
    let size = count.value as usize;
    Ok(Plain {
        payload: Payload::Bytes(&rest[..size]),
        len: count.len + size,
    })
}
