//! The atomic steps on a desk's table, one function each.
ghost use Rattle.std.specs.Prelude.{◌≡◌, ◌+◌, ◌^◌, ◌<◌, [], ◌∷◌, length, Some, None, IfOk};
ghost use Rattle.trail_desk.specs.declared.rule.Whole.{Whole};
ghost use Rattle.trail_desk.specs.declared.rule.Part.{Part};
ghost use Rattle.trail_desk.specs.declared.entry.Entry.{Entry};
ghost use Rattle.trail_desk.specs.Rules.{IsTold};
ghost use Rattle.trail_desk.specs.Views.{unused, first_view, keeping, opened_by, sitting, with_seat, new_part, with_keeper, without_keeper, informed, entered};

use crate::entry::{Entry, Opening};
use crate::rule::{
    Adding, Keeper, Keeping, Making, Named, Reading, Seeing, Telling, Token, TrailTable,
};
use atomic_table::Table;
use std::alloc::{AllocError, Global};

// A table with the token of its keeper.
pub(crate) fn new_table<C, A, G>(
    alloc: Global,
    opening: &Opening<C>,
) -> Result<(TrailTable<C, A, G>, Token<C, A, G>), AllocError>
    ensures { IfOk result (λ made. (made.0.shared.table_id.words ≡ 1) × (made.1.table_id ≡ made.0.shared.table_id) × (made.1.me ≡ (first_view opening.now, [])) × (made.0.shared.key ≡ opening.now)) }
{
    Table::of_words(alloc, &[0], opening)
}

// The keeper makes one more seat.
pub(crate) fn make_seat<C, A, G>(
    table: &TrailTable<C, A, G>,
    keeper: &mut Token<C, A, G>,
) -> Token<C, A, G>
    requires words { table.now.shared.table_id.words ≡ 1 }
    requires tokens { keeper.old.table_id ≡ table.now.shared.table_id }
    requires keeper { (whole : Whole C A G) × (keeper.old.me ≡ (keeping (Some whole), [])) }
    ensures tables { (keeper.new.table_id ≡ keeper.old.table_id) × (result.table_id ≡ keeper.old.table_id) }
    ensures kept { (whole : Whole C A G) → keeper.old.me ≡ (keeping (Some whole), []) → keeper.new.me ≡ (keeping (Some (with_seat whole)), []) }
    ensures made { (whole : Whole C A G) → keeper.old.me ≡ (keeping (Some whole), []) → result.me ≡ (sitting (Some whole.opening) (Some (new_part whole)), []) }
{
    table.shared.split_seat::<Making>(keeper)
}

// A token that knows how the desk began.
pub(crate) fn tell_opening<C, A, G>(table: &TrailTable<C, A, G>) -> Token<C, A, G>
    requires { table.now.shared.table_id.words ≡ 1 }
    ensures table { result.table_id ≡ table.now.shared.table_id }
    ensures knows { result.me ≡ (opened_by (Some table.now.shared.key), []) }
{
    table.shared.load_new_seat::<Telling>(0).1
}

// The token takes in what the keeper knows, and what the rule says of its view is read.
pub(crate) fn take_keeper<C, A, G>(
    table: &TrailTable<C, A, G>,
    token: &mut Token<C, A, G>,
    keeper: Keeper<C, A, G>,
)
    requires words { table.now.shared.table_id.words ≡ 1 }
    requires tokens { (token.old.table_id ≡ table.now.shared.table_id) × (keeper.table_id ≡ table.now.shared.table_id) }
    requires keeper { (whole : Whole C A G) × (keeper.views ≡ keeping (Some whole) ∷ []) }
    requires token { (token.old.me.0.whole ≡ None) × (token.old.me.1 ≡ []) }
    ensures table { token.new.table_id ≡ token.old.table_id }
    ensures taken { (whole : Whole C A G) → keeper.views ≡ keeping (Some whole) ∷ [] → token.new.me ≡ (with_keeper token.old.me.0 (keeping (Some whole)), []) }
    ensures told { (whole : Whole C A G) → keeper.views ≡ keeping (Some whole) ∷ [] → IsTold token.old.me.0 whole }
{
    table.shared.join_seat::<Keeping>(token, keeper.into_seat());
    table.shared.load::<Reading>(token, 0);
}

// The token's seat sees the whole trail.
pub(crate) fn see_trail<C, A, G>(table: &TrailTable<C, A, G>, token: &mut Token<C, A, G>)
    requires words { table.now.shared.table_id.words ≡ 1 }
    requires tokens { token.old.table_id ≡ table.now.shared.table_id }
    requires token { (whole : Whole C A G) × (token.old.me.0.whole ≡ Some whole) }
    requires slots { token.old.me.1 ≡ [] }
    ensures table { token.new.table_id ≡ token.old.table_id }
    ensures seen { token.new.me ≡ (informed token.old.me.0, []) }
{
    table.shared.load::<Seeing>(token, 0);
}

// The token's seat enters a step at the end of the trail.
pub(crate) fn add_entry<C, A, G, E: Named<A, G>>(
    table: &TrailTable<C, A, G>,
    token: &mut Token<C, A, G>,
    entry: &Entry<A, G>,
)
    requires words { table.now.shared.table_id.words ≡ 1 }
    requires tokens { token.old.table_id ≡ table.now.shared.table_id }
    requires token { (whole : Whole C A G) × (part : Part A G) × (token.old.me.0.whole ≡ Some whole) × (token.old.me.0.part ≡ Some part) × (entry.now.seat ≡ part.seat) × (length whole.trail + 1 < 2 ^ 64) }
    requires slots { token.old.me.1 ≡ [] }
    requires is { E.is entry.now }
    requires only { (entered : Entry A G) → E.is entered → entered ≡ entry.now }
    ensures table { token.new.table_id ≡ token.old.table_id }
    ensures entered { token.new.me ≡ (entered entry.now token.old.me.0, []) }
{
    let _ = entry;
    table.shared.fetch_add::<Adding<E>>(token, 0, 1);
}

// The keeper, which the token gives up.
pub(crate) fn give_keeper<C, A, G>(
    table: &TrailTable<C, A, G>,
    token: &mut Token<C, A, G>,
) -> Keeper<C, A, G>
    requires words { table.now.shared.table_id.words ≡ 1 }
    requires tokens { token.old.table_id ≡ table.now.shared.table_id }
    requires token { (whole : Whole C A G) × (token.old.me.0.whole ≡ Some whole) }
    requires slots { token.old.me.1 ≡ [] }
    ensures tables { (token.new.table_id ≡ token.old.table_id) × (result.table_id ≡ token.old.table_id) }
    ensures left { token.new.me ≡ (without_keeper token.old.me.0, []) }
    ensures keeper { result.views ≡ keeping token.old.me.0.whole ∷ [] }
{
    table.shared.split_seat::<Keeping>(token).into_badge()
}
