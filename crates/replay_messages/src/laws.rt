//! What holds of the messages of all runs, by the definitions alone.
ghost use Rattle.replay_messages.specs.Laws.{RepliesAgree, HistoriesAgree, HistoriesStayPlain, RepliesArePlain, RepliesAreSayable};

/// A server that handles the messages of plain requests does what the model's server does, and its replies can be
/// read from their bytes.
pub fn server_agrees()
    ensures replies { RepliesAgree }
    ensures histories { HistoriesAgree }
    ensures plain_histories { HistoriesStayPlain }
    ensures plain_replies { RepliesArePlain }
    ensures sayable { RepliesAreSayable }
{}
