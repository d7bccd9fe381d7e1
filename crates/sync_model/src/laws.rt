//! What is proved of every run, by the definitions alone.
ghost use Rattle.sync_model.specs.EchoFacts.{EveryOfferIsKept};
ghost use Rattle.sync_model.specs.EchoLaws.{EveryOwnEchoIsKnown};
ghost use Rattle.sync_model.specs.Settings.{Setting, IsSetting};
ghost use Rattle.sync_model.specs.Lawful.{IsLawful};
ghost use Rattle.sync_model.specs.Laws.{EveryEventKeepsBased, EveryWriteIsBased, EveryEntryWritesOnce, EveryWriteHasOneAuthor, EveryCaughtUpSideAgrees, EveryFateIsTrue, EveryNumberIsTrue, NoLockIsLost, EveryCurrentClientHasTheKeys, EveryCurrentClientOpensWrites, EveryReplyGivesWrites, EveryCurrentClientOpens};

use crate::event::Schedule;

/// Whatever a schedule delivers, and however often: the server replaced an entity only by a commit that
/// was based on the version that it had. So a repeated commit acts at most once for each entry.
pub fn every_write_is_based()
    ensures each_event { EveryEventKeepsBased }
    ensures each_run { EveryWriteIsBased }
{}

/// However often a request is delivered, each of its entries is stored at most once; and each write is one
/// entry of one request, and of no other.
pub fn every_entry_writes_once()
    ensures entries { EveryEntryWritesOnce }
    ensures writes { EveryWriteHasOneAuthor }
{}

/// Whatever is delivered and lost, and however often: a client that has all that the server has, and has
/// nothing to send of a type, shows the value of the last write of each key of that type.
pub fn every_caught_up_side_agrees()
    ensures { EveryCaughtUpSideAgrees }
{}

/// Whatever is delivered and lost, and however many passphrases are chosen: a key that seals a write of
/// the server's history is among the keys of the newest write of the profile's keys, and a client that
/// knows that write has it, and opens every batch of writes, be it of a new reply or an old one.
pub fn no_key_is_lost()
    ensures history { NoLockIsLost }
    ensures clients { EveryCurrentClientHasTheKeys }
    ensures replies { EveryReplyGivesWrites }
    ensures writes { EveryCurrentClientOpensWrites }
    ensures batches { EveryCurrentClientOpens }
{}

/// Whatever is delivered and lost, and however often: an edit that was acknowledged to its user stands on its
/// client, or it was followed there by a later one, or the server has its value, or it lost to a write or was
/// merged with one by a row of the conflict table; and its fate says which, and by which edit or write. No two
/// edits of a client and a type have one number, and a report lists exactly those that were acknowledged.
pub fn every_fate_is_true()
    ensures fates { EveryFateIsTrue }
    ensures numbers { EveryNumberIsTrue }
{}

/// Whatever is delivered and lost, and however often: an edit is not taken by a write that its own client
/// offered by an earlier edit, nor merged with it, unless the client offered more than eight edits of the
/// key over one version that it knew. For what a client offered over the version that it knows of a key
/// stands among the key's offered pairs, unless eight greater numbers do.
pub fn every_own_echo_is_known()
    ensures law { EveryOwnEchoIsKnown }
    ensures offers { EveryOfferIsKept }
{}

/// All that holds of the world of a schedule, whatever is delivered and lost, and however often.
pub fn every_world_is_lawful()
    ensures { (setting : Setting) → IsSetting setting → (schedule : Schedule) → IsLawful setting schedule }
{}
