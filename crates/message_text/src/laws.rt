//! What holds of all messages here, by the definitions alone.
ghost use Rattle.message_text.specs.Laws.{SayOneMessage};

/// Bytes say one message of a direction at most, so that what is shown of them is what they say.
pub fn bytes_say_one_message()
    ensures { SayOneMessage }
{
    sync_messages::bytes_say_one_message();
}
