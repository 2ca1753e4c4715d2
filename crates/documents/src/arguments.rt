// The arguments of one call against the parameters of its operation: codes 16 to 18. The arguments stand in the document's table, the parameters in the
// directory of the list. Each argument's value is walked once where it fits.
ghost use Rattle.std.specs.Prelude.{◌≡◌, ◌+◌, ◌<◌, ◌≤◌, min};
ghost use Rattle.std.proofs.Math.Option.{some};
ghost use Rattle.lexis.specs.Refusal.{refusal_number};
ghost use Rattle.syntax.specs.Table.{token_at};
ghost use Rattle.lists.specs.Fault.{fault};
ghost use Rattle.lists.specs.Best.{meant};
ghost use Rattle.lists.specs.Fitting.{Within};
ghost use Rattle.documents.specs.Tallies.{AimInside, Grown, Onward, EndsAt};
ghost use Rattle.documents.specs.Callees.{OfPlace, OfLabel, OfArgument, FitsParameter, OfBound, OfOne, OfAll};

use crate::callee::Callee;
use index::token::bytes_at;
use lexis::limits::Limits;
use lexis::refusal::Refusal;
use lexis::symbol::Symbol;
use lists::best::Best;
use lists::fitting::{fits_item, is_leaf};
use lists::mask::{holds, with};
use lists::types::{is_tensor, kinds_in, pairs_in};
use syntax::tokens::Tokens;
use syntax::value::Leaves;

// What the arguments before a place amount to: their first fault, the mask of the parameters that they bind, whether none of them is named, how many there
// are, the parameter after the one bound last, and the place they go on at.
#[derive(Clone, Copy)]
pub struct Tally {
    pub best: Best,
    pub bound: u32,
    pub leads: bool,
    pub index: usize,
    pub guess: usize,
    pub at: usize,
}

// What an argument is for: the number of the parameter that it binds, or why it binds none; the place of its value; and whether neither it nor an argument
// before it is named.
#[derive(Clone, Copy)]
pub struct Aim {
    pub parameter: Result<usize, Refusal>,
    pub value: usize,
    pub leads: bool,
}

// What a positional argument at the tally's place is for.
fn positional(callee: &Callee<'_>, t: Tally) -> Aim
    ensures range { AimInside callee.now.operation t.at result }
    ensures place { result.value ≡ t.at }
    ensures meaning { OfPlace callee.now t result }
{
    let p = t.index;
    let refused = Aim {
        parameter: Err(Refusal::Misplaced),
        value: t.at,
        leads: t.leads,
    };
    if !t.leads {
        return refused;
    }
    if callee.operation.count <= p {
        return refused;
    }
    if !is_tensor(callee.code_of(p)) {
        return refused;
    }
    Aim {
        parameter: Ok(p),
        value: t.at,
        leads: true,
    }
}

// What a named argument at the tally's place is for.
fn named(doc: &Tokens<'_>, callee: &Callee<'_>, t: Tally) -> Aim
    requires at_bound { t.at + 1 < doc.now.count }
    ensures range { AimInside callee.now.operation t.at result }
    ensures place { result.value ≡ t.at + 2 }
    ensures meaning { OfLabel (token_at doc.now.text.now doc.now.table.now t.at) callee.now t result }
{
    let w = bytes_at(doc, t.at);
    let refused = Aim {
        parameter: Err(Refusal::Misnamed),
        value: t.at + 2,
        leads: false,
    };
    let Some(p) = callee.number_of(w, t.guess) else {
        return refused;
    };
    if holds(t.bound, p as u32) {
        return refused;
    }
    Aim {
        parameter: Ok(p),
        value: t.at + 2,
        leads: false,
    }
}

// What the argument at the tally's place is for.
fn aim_of(doc: &Tokens<'_>, callee: &Callee<'_>, t: Tally) -> Aim
    ensures range { AimInside callee.now.operation t.at result }
    ensures meaning { OfArgument doc.now callee.now t result }
{
    if doc.is_label(t.at) {
        return named(doc, callee, t);
    }
    positional(callee, t)
}

// The place after the value at place v, or the end.
pub fn value_end(tokens: &Tokens<'_>, v: usize) -> usize
    ensures range { (min (v + 1) tokens.now.count ≤ result) × (result ≤ tokens.now.count) }
    ensures meaning { EndsAt tokens.now.text.now tokens.now.table.now tokens.now.count v result }
{
    if is_leaf(tokens.symbol_at(v)) {
        return v + 1;
    }
    let read = tokens.value(v, Leaves::Both, Limits::BRACKETS);
    let Ok(next) = read else {
        return tokens.count;
    };
    next
}

// The fault of this code at the token at place `at`.
pub fn fault_at(tokens: &Tokens<'_>, at: usize, code: u32) -> Best
    ensures { at < tokens.now.count → meant result ≡ some (fault code (token_at tokens.now.text.now tokens.now.table.now at).start) }
{
    if tokens.count <= at {
        return Best::none();
    }
    Best::coded(code, tokens.start_at(at))
}

// This refusal at the token at place `at`.
pub(crate) fn refusal_at(tokens: &Tokens<'_>, at: usize, refusal: Refusal) -> Best
    ensures { at < tokens.now.count → meant result ≡ some (fault (refusal_number refusal) (token_at tokens.now.text.now tokens.now.table.now at).start) }
{
    fault_at(tokens, at, refusal.number())
}

// The place after the value at place v, where it fits parameter i of the operation.
fn fits_parameter(doc: &Tokens<'_>, v: usize, callee: &Callee<'_>, i: usize) -> Option<usize>
    requires i_lt_count { i < callee.now.operation.count }
    ensures range { Within doc.now.count v result }
    ensures meaning { FitsParameter doc.now v callee.now i result }
{
    let t = callee.name_of(i) + 2;
    let code = callee.code_of(i);
    let kinds = kinds_in(code);
    let pairs = pairs_in(code);
    fits_item(doc, v, &callee.list, t, kinds, pairs)
}

impl Tally {
    // The tally with an argument more, which has this fault, leaves this mask, and ends at place `next`.
    fn grown(self, fault: Best, bound: u32, guess: usize, leads: bool, next: usize) -> Tally
        requires { self.index < 9223372036854775807 }
        ensures { Grown self (meant fault) bound leads next result }
    {
        Tally {
            best: self.best.earlier(fault),
            bound: bound,
            leads: leads,
            index: self.index + 1,
            guess: guess,
            at: next,
        }
    }
}

// The tally with an argument more, which binds parameter p.
fn with_bound(doc: &Tokens<'_>, callee: &Callee<'_>, t: Tally, a: Aim, p: usize) -> Tally
    requires number_lt_count { (p < callee.now.operation.count) × (t.index ≤ doc.now.count) }
    ensures range { Onward doc.now.count a.value t result }
    ensures meaning { OfBound doc.now callee.now t a p result }
{
    let v = a.value;
    let bound = with(t.bound, p as u32);
    if let Some(next) = fits_parameter(doc, v, callee, p) {
        return t.grown(Best::none(), bound, p + 1, a.leads, next);
    }
    let fault = refusal_at(doc, v, Refusal::Misfit);
    let end = value_end(doc, v);
    t.grown(fault, bound, p + 1, a.leads, end)
}

// The tally with an argument more.
fn with_argument(doc: &Tokens<'_>, callee: &Callee<'_>, t: Tally) -> Tally
    requires index_le_dn { t.index ≤ doc.now.count }
    ensures range { Onward doc.now.count t.at t result }
    ensures meaning { OfOne doc.now callee.now t result }
{
    let a = aim_of(doc, callee, t);
    match a.parameter {
        Ok(p) => with_bound(doc, callee, t, a, p),
        Err(refusal) => {
            let fault = refusal_at(doc, t.at, refusal);
            let end = value_end(doc, a.value);
            t.grown(fault, t.bound, t.guess, a.leads, end)
        }
    }
}

// The tally of all arguments, which begin at place `at`; its place is that of the bracket that closes them.
pub fn tally_all(doc: &Tokens<'_>, callee: &Callee<'_>, at: usize) -> Tally
    requires at_le_dn { at ≤ doc.now.count }
    ensures range { (min (at + 1) doc.now.count ≤ result.at) × (result.at ≤ doc.now.count) }
    ensures meaning { OfAll doc.now callee.now at result }
{
    let mut t = Tally {
        best: Best::none(),
        bound: 0,
        leads: true,
        index: 0,
        guess: 0,
        at: at,
    };
    // No `for`: the tokens say where the arguments end.
    loop {
        t = with_argument(doc, callee, t);
        if doc.symbol_at(t.at) != Symbol::COMMA {
            return t;
        }
        t.at += 1;
    }
}
