//! Reading a server's answers to the entries of a commit.
ghost use Rattle.std.specs.Prelude.{◌≡◌, IfOk};
ghost use Rattle.message_fields.specs.Fields.{ArePartsOf};
ghost use Rattle.message_fields.specs.Lookups.{AreWithin, number_or};
ghost use Rattle.sync_messages.specs.Answers.{AreAnswersIn, answer_fault, answer_of, outcome_fault, outcome_number, outcome_of_number};

use crate::message::{EntryAnswer, Outcome};
use crate::tables::ANSWER_FIELDS;
use message_fields::{Message, MessageFault, MessageReason, Part, first_fault, first_of};
use std::alloc::Global;
use wire_fields::{NoMemory, Octets};

impl Outcome {
    /// The number by which messages name the outcome.
    pub fn number(self) -> u32
        ensures { result ≡ outcome_number self }
    {
        match self {
            Outcome::Success => 1,
            Outcome::Conflict => 2,
            Outcome::Retry => 3,
            Outcome::Invalid => 4,
            Outcome::OverQuota => 5,
            Outcome::Transient => 6,
        }
    }

    /// The outcome of a number, if it is that of one.
    pub fn from_number(number: u64) -> Option<Outcome>
        ensures { result ≡ outcome_of_number number }
    {
        match number {
            1 => Some(Outcome::Success),
            2 => Some(Outcome::Conflict),
            3 => Some(Outcome::Retry),
            4 => Some(Outcome::Invalid),
            5 => Some(Outcome::OverQuota),
            6 => Some(Outcome::Transient),
            _ => None,
        }
    }
}

// The answers that stand in these parts, and what is at fault in them.
pub(crate) fn answers_in(
    alloc: Global,
    input: &[u8],
    parts: &[Part],
) -> Result<(Option<MessageFault>, Vec<EntryAnswer>), NoMemory>
    requires { ArePartsOf input.now parts.now }
    ensures { IfOk result (λ found. AreAnswersIn input.now parts.now found.0 found.1.items) }
{
    let mut fault = None;
    let mut answers = Vec::new(alloc);
    for part in parts {
        let message = Message::read(alloc, input, &[*part], &ANSWER_FIELDS)?;
        fault = first_of(fault, answer_fault(&message));
        answers.push(answer_in(alloc, input, &message)?)?;
    }
    Ok((fault, answers))
}

fn answer_in(alloc: Global, input: &[u8], message: &Message) -> Result<EntryAnswer, NoMemory>
    requires { AreWithin input.now message.now.fields }
    ensures { IfOk result (λ answer. answer ≡ answer_of input.now message.now) }
{
    Ok(EntryAnswer {
        outcome: outcome_in(message).unwrap_or(Outcome::Transient),
        id: Octets::from_slice(alloc, message.bytes(input, 3))?,
        version: message.varint(6).unwrap_or(0).cast_signed(),
    })
}

// The outcome of an answer, if its number is that of one.
fn outcome_in(message: &Message) -> Option<Outcome>
    ensures { result ≡ outcome_of_number (number_or 6 2 message.now.fields) }
{
    Outcome::from_number(message.varint(2).unwrap_or(6))
}

// What is at fault in an answer.
fn answer_fault(message: &Message) -> Option<MessageFault>
    ensures { result ≡ answer_fault message.now }
{
    first_fault(&[
        message.wire_fault(),
        message.wrong_kind(&ANSWER_FIELDS),
        outcome_fault(message),
        message.missing(2),
    ])
}

// An outcome whose number is that of none.
fn outcome_fault(message: &Message) -> Option<MessageFault>
    ensures { result ≡ outcome_fault message.now }
{
    if outcome_in(message).is_some() {
        return None;
    }
    message.fault_of(2, MessageReason::Range { field: 2 })
}
