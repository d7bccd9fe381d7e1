//! What holds of the messages on links, whoever reads or writes them.
ghost use Rattle.http_edge.specs.Laws.{RequestsHaveOneAnswer, RepliesHaveOneAnswer, WrittenRequestsAreRead, WrittenRepliesAreRead};

/// The bytes of a link have one answer at most as a request, and one rest of them is left unread.
pub fn requests_have_one_answer()
    ensures { RequestsHaveOneAnswer }
{}

/// The bytes of a link have one answer at most as a reply, and one rest of them is left unread.
pub fn replies_have_one_answer()
    ensures { RepliesHaveOneAnswer }
{}

/// A request that [`exchange`](crate::exchange) writes with a body within the limit is read as this body.
pub fn written_requests_are_read()
    ensures { WrittenRequestsAreRead }
{}

/// A reply that [`write_reply`](crate::write_reply) writes with the code 200 and a body within the limit is read as this
/// body.
pub fn written_replies_are_read()
    ensures { WrittenRepliesAreRead }
{}
