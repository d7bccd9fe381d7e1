//! What holds of all messages, by the definitions alone.
ghost use Rattle.message_fields.specs.Laws.{PiecesAreOneMessage, PiecesAreOneWholeMessage, ExtrasAreCanonical, CanonicalExtrasStay};

/// Pieces of an input are one message at most, so that what is read of them is what they are.
pub fn pieces_are_one_message()
    ensures known { PiecesAreOneMessage }
    ensures whole { PiecesAreOneWholeMessage }
{}

/// What is kept of the fields that a table lacks is canonical, so that keeping it again changes nothing.
pub fn extras_are_canonical()
    ensures are_canonical { ExtrasAreCanonical }
    ensures stay { CanonicalExtrasStay }
{}
