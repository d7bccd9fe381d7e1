//! What holds of every change.
ghost use Rattle.client_keeper.specs.Laws.{TheLastEntryStands, ChangesKeepTheOrder};

/// After a change each key has what the change says of it last, and the rows are in order. With the order, look-ups
/// determine the rows.
#[tactic(auto, using(crate::proofs::ChangeLemmas::last_stands, crate::proofs::ChangeLemmas::order_kept))]
pub fn the_last_entry_stands()
    ensures stands { TheLastEntryStands }
    ensures in_order { ChangesKeepTheOrder }
{}
