//! The groups that are open inside one another.
ghost use Rattle.std.specs.Prelude.{◌≡◌};
ghost use Rattle.wire_format.specs.Groups.{IsNested};
ghost use Rattle.wire_format.specs.declared.token.Body as Body;

use crate::token::{Body, Token};
use arrayvec::ArrayVec;

// The numbers of the groups that are open, the outermost first.
pub(crate) type OpenGroups = ArrayVec<u32, 32>;

// What a token does to the groups that are open.
#[derive(Debug, Clone, Copy, PartialEq, Eq, Drop)]
pub(crate) enum Nesting {
    // It may stand there.
    Fits,
    // It ends a group that is not the innermost.
    Stray,
    // It would start a group inside as many as may be open.
    TooDeep,
}

// Takes a token into account, before which some groups are open.
pub(crate) fn nest(groups: &mut OpenGroups, token: &Token<'_>) -> Nesting
    ensures { IsNested result token.now.body token.now.number groups.old.items groups.new.items }
{
    match token.body {
        Body::Plain(_) => Nesting::Fits,
        Body::Start => start(groups, token.number),
        Body::End => end(groups, token.number),
    }
}

fn start(groups: &mut OpenGroups, number: u32) -> Nesting
    ensures { IsNested result Body.Start number groups.old.items groups.new.items }
{
    match groups.try_push(number) {
        Ok(()) => Nesting::Fits,
        Err(_) => Nesting::TooDeep,
    }
}

fn end(groups: &mut OpenGroups, number: u32) -> Nesting
    ensures { IsNested result Body.End number groups.old.items groups.new.items }
{
    match groups.pop() {
        Some(innermost) if innermost == number => Nesting::Fits,
        _ => Nesting::Stray,
    }
}
