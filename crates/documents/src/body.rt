// The calls of a body under a list: all rules of a call in one walk, which keeps the records of calls and wires as it goes.
// The index and the records are parameters and no part of `Source`: lent as one, each call would have to promise that the tokens stay.
ghost use Rattle.std.specs.Prelude.{◌≡◌, ◌+◌, ◌<◌, ◌≤◌, length};
ghost use Rattle.spellings.specs.Comparison.{same_bytes};
ghost use Rattle.lexis.specs.Ascii.{ascii};
ghost use Rattle.syntax.specs.Table.{token_at};
ghost use Rattle.index.specs.Indexed.{Walkable};
ghost use Rattle.documents.specs.Records.{records_words};
ghost use Rattle.documents.specs.Sources.{OfLeft, OfStep, OfBody};

use crate::calls::{after_call, find};
use crate::directory::Directory;
use crate::graph::Graph;
use crate::judging::judge;
use crate::records::record;
use crate::source::Source;
use crate::wiring::{Tally, assigned, used};
use index::token::bytes_at;
use lexis::limits::Limits;
use lexis::refusal::Refusal;
use lexis::symbol::Symbol;
use lists::best::Best;
use spellings::same;
use syntax::tokens::Tokens;

// The first fault of the calls before place `at`, and how many calls, identifiers assigned and identifiers used there are.
#[derive(Clone, Copy)]
pub struct Walk {
    pub best: Best,
    pub calls: usize,
    pub assigned: usize,
    pub uses: usize,
    pub at: usize,
}

// Whether the token at place i is spelt `external`.
fn is_external(tokens: &Tokens<'_>, i: usize) -> bool
    ensures { i < tokens.now.count → result ≡ same_bytes (token_at tokens.now.text.now tokens.now.table.now i).bytes (ascii "external") }
{
    if tokens.count <= i {
        return false;
    }
    same(bytes_at(tokens, i), b"external")
}

// Where the token at place i starts; 0 beyond the last. A number and no `Option`: it goes into a call's record, which has a word for it.
fn place_of(source: &Source<'_>, i: usize) -> u32
    ensures upper_bound { result < 65536 }
    ensures value { i < source.now.tokens.count → result ≡ (token_at source.now.tokens.text.now source.now.tokens.table.now i).start }
{
    if source.tokens.count <= i {
        return 0;
    }
    source.tokens.start_at(i)
}

// The left side of call k from place `at` up to its `=`, and whether the call is one too many.
fn left_side(
    source: &Source<'_>,
    at: usize,
    equal: usize,
    k: usize,
    index: &mut [u16],
    tally: Tally,
) -> Tally
    requires at_lt_n { (at < source.now.tokens.count) × (at ≤ equal) × (equal ≤ source.now.tokens.count) × (k ≤ at) × (tally.count ≤ at) }
    requires walkable { Walkable index.old at source.now.tokens.count }
    ensures count_le_count { (tally.count ≤ result.count) × (result.count ≤ equal) }
    ensures walkable_2 { Walkable index.new equal source.now.tokens.count }
    ensures left_side { OfLeft source.now index.old index.new at equal k tally result }
{
    let external = is_external(&source.tokens, equal + 1);
    let beyond = Best::refusal_if(
        k == Limits::CALLS,
        Refusal::OverSize,
        source.tokens.start_at(at),
    );
    let start = Tally {
        best: tally.best.earlier(beyond),
        count: tally.count,
    };
    assigned(source, at, equal, k, external, index, start)
}

// One call more.
fn call_at(
    directory: &Directory<'_>,
    source: &Source<'_>,
    index: &mut [u16],
    records: &mut [u16],
    walk: Walk,
) -> Walk
    requires records_room { records_words ≤ length records.old }
    requires at_lt_dn { (walk.at < source.now.tokens.count) × (walk.calls ≤ walk.at) × (walk.assigned ≤ walk.at) × (walk.uses ≤ walk.at) }
    requires walkable { Walkable index.old walk.at source.now.tokens.count }
    ensures at_lt_at { (walk.at < result.at) × (result.calls ≤ result.at) × (result.assigned ≤ result.at) × (result.uses ≤ result.at) }
    ensures walkable_2 { (Walkable index.new result.at source.now.tokens.count) × (Walkable index.new source.now.tokens.count source.now.tokens.count)
        × (length records.new ≡ length records.old) }
    ensures stepped { OfStep directory.now source.now index.old index.new records.old records.new walk result }
{
    let at = walk.at;
    let k = walk.calls;
    let equal = find(&source.tokens, at, Symbol::EQUAL);
    let best = walk.best;
    let start = Tally {
        best: best,
        count: walk.assigned,
    };
    let left = left_side(source, at, equal, k, &mut *index, start);
    let j = judge(directory, &source.tokens, at, equal);
    let middle = Tally {
        best: left.best.earlier(j.best),
        count: walk.uses,
    };
    let right = used(source, equal + 3, j.close, k, index, &mut *records, middle);
    let assigns = left.count - walk.assigned;
    let uses = right.count - walk.uses;
    let place = place_of(source, equal + 1);
    record(&mut *records, k, j.op.unwrap_or(0), place, assigns, uses);
    let last = right.best;
    Walk {
        best: last,
        calls: k + 1,
        assigned: left.count,
        uses: right.count,
        at: after_call(&source.tokens, j.close),
    }
}

// All calls of the body.
pub fn body(
    directory: &Directory<'_>,
    source: &Source<'_>,
    index: &mut [u16],
    records: &mut [u16],
    graph: Graph,
) -> Walk
    requires records_room { records_words ≤ length records.old }
    requires end_le_dn { graph.end ≤ source.now.tokens.count }
    requires walkable { (Walkable index.old graph.body source.now.tokens.count) × (Walkable index.old source.now.tokens.count source.now.tokens.count) }
    ensures walkable_2 { Walkable index.new source.now.tokens.count source.now.tokens.count }
    ensures body { OfBody directory.now source.now graph index.old index.new records.new result }
{
    let mut walk = Walk {
        best: Best::none(),
        calls: 0,
        assigned: 0,
        uses: 0,
        at: graph.body,
    };
    // No `for`: each call says where the next one begins.
    while walk.at < graph.end {
        walk = call_at(directory, source, &mut *index, &mut *records, walk);
    }
    walk
}
