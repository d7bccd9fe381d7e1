//! What holds of all messages here, by the definitions alone.
ghost use Rattle.sync_messages.specs.Laws.{SayOneEntity, SayOneRequest, SayOneReply, SaidEntitiesAreCanonical, SaidRequestsAreCanonical, SaidRepliesAreCanonical, EntitiesAreRead, RequestsAreRead, RepliesAreRead};

/// Bytes say one message at most, so that a decoder's answer is what they say.
pub fn bytes_say_one_message()
    ensures entities { SayOneEntity }
    ensures requests { SayOneRequest }
    ensures replies { SayOneReply }
{}

/// Each extra in a message that bytes say is canonical, so that what a decoder gives may be handed to a server or a
/// client.
pub fn said_extras_are_canonical()
    ensures entities { SaidEntitiesAreCanonical }
    ensures requests { SaidRequestsAreCanonical }
    ensures replies { SaidRepliesAreCanonical }
{}

/// What an encoder writes says the message that it was given, so that the decoder gives it back.
pub fn written_messages_are_read()
    ensures entities { EntitiesAreRead }
    ensures requests { RequestsAreRead }
    ensures replies { RepliesAreRead }
{}
