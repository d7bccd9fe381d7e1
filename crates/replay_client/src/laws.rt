//! What holds of all clients' replies, by the definitions alone.
ghost use Rattle.replay_client.specs.Laws.{RepliesAreTaken};

/// What the model's server says is a reply that a client's `answer` speaks of.
#[tactic(auto, using(crate::proofs::ServedReplies::replies_are_taken))]
pub fn every_reply_is_taken()
    ensures { RepliesAreTaken }
{}
