// The header of a graph: its inputs and outputs.
ghost use Rattle.std.specs.Prelude.{◌∷◌, [], suc, ◌+◌, ◌<◌, ◌≤◌};
ghost use Rattle.lexis.specs.Refusal.{refusal_number};
ghost use Rattle.syntax.specs.Table.{token_at, toks};
ghost use Rattle.syntax.specs.Tokens.{from};
ghost use Rattle.index.specs.Indexed.{Walkable};
ghost use Rattle.lists.specs.Scans.{names_among};
ghost use Rattle.documents.specs.Naming.{listed_number};
ghost use Rattle.documents.specs.NameWalks.{ListsNames, Unassigned};

use crate::source::Source;
use crate::wiring::{Listed, Tally, Word};
use index::token::bytes_at;
use index::{enter, keep_word, look_up};
use lexis::refusal::Refusal;
use lexis::symbol::Symbol;
use lists::best::Best;
use syntax::tokens::Tokens;

// The input or output at place i, if there is one: beyond the size, or listed already. It is entered as what it is.
fn listed_at(
    source: &Source<'_>,
    i: usize,
    size: usize,
    which: Listed,
    index: &mut [u16],
    tally: Tally,
) -> Tally
    requires i_lt_n { (i < source.now.tokens.count) × (tally.count ≤ i) }
    requires walkable { Walkable index.old i source.now.tokens.count }
    ensures count_bound { result.count ≤ suc i }
    ensures walkable_2 { Walkable index.new (i + 1) source.now.tokens.count }
    ensures lists_names { ListsNames source.now.tokens.text.now source.now.tokens.table.now index.old index.new i (i + 1) size (listed_number which)
        (names_among (token_at source.now.tokens.text.now source.now.tokens.table.now i ∷ [])) tally result }
{
    if source.tokens.symbol_at(i) != Symbol::NAME {
        return tally;
    }
    let p = enter(&source.tokens, &mut *index, i);
    let had = keep_word(&mut *index, p, Word::LISTING, which.number());
    let refusal = if tally.count == size {
        Some(Refusal::OverSize)
    } else if had.is_some() {
        Some(Refusal::RepeatedName)
    } else {
        None
    };
    tally.next(refusal, source.tokens.start_at(i))
}

// The inputs or outputs at the places from `from` up to `to`.
pub fn listed(
    source: &Source<'_>,
    from: usize,
    to: usize,
    size: usize,
    which: Listed,
    index: &mut [u16],
    tally: Tally,
) -> Tally
    requires from_le_to { (from ≤ to) × (to ≤ source.now.tokens.count) × (tally.count ≤ from) }
    requires walkable { Walkable index.old from source.now.tokens.count }
    ensures walkable_2 { Walkable index.new to source.now.tokens.count }
    ensures lists_names { ListsNames source.now.tokens.text.now source.now.tokens.table.now index.old index.new from to size (listed_number which)
        (names_among (toks source.now.tokens.text.now source.now.tokens.table.now to from)) tally result }
{
    let mut sum = tally;
    for i in from..to {
        sum = listed_at(source, i, size, which, &mut *index, sum);
    }
    sum
}

// The name at place i, if there is one and no call assigns it, as this refusal.
fn unassigned_at(tokens: &Tokens<'_>, i: usize, index: &[u16], refusal: Refusal, best: Best) -> Best
    requires i_lt_n { i < tokens.now.count }
    requires walkable { Walkable index.now tokens.now.count tokens.now.count }
    ensures { Unassigned tokens.now.text.now tokens.now.table.now index.now (refusal_number refusal)
        (names_among (token_at tokens.now.text.now tokens.now.table.now i ∷ [])) best result }
{
    if tokens.symbol_at(i) != Symbol::NAME {
        return best;
    }
    let a = look_up(tokens, index, bytes_at(tokens, i), Word::ASSIGNER);
    best.earlier(Best::refusal_if(a.is_none(), refusal, tokens.start_at(i)))
}

// The names at the places from `from` up to `to` that no call assigns.
pub fn unassigned(
    tokens: &Tokens<'_>,
    from: usize,
    to: usize,
    index: &[u16],
    refusal: Refusal,
    best: Best,
) -> Best
    requires to_le_n { to ≤ tokens.now.count }
    requires walkable { Walkable index.now tokens.now.count tokens.now.count }
    ensures { Unassigned tokens.now.text.now tokens.now.table.now index.now (refusal_number refusal)
        (names_among (toks tokens.now.text.now tokens.now.table.now to from)) best result }
{
    let mut sum = best;
    for i in from..to {
        sum = unassigned_at(tokens, i, index, refusal, sum);
    }
    sum
}
