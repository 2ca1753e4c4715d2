// The rules of an operation list, codes 12, 13 and 14, and its directory, in one walk over the headers.
// The tokens, the index and the words are parameters and no struct: lent as one, each call would have to promise that the tokens stay.
ghost use Rattle.std.specs.Prelude.{◌≡◌, Bool, List, [], ◌∷◌, ◌++◌, ◌+◌, ◌<◌, ◌≤◌, length, unwrap_or};
ghost use Rattle.std.proofs.Math.Option.{some};
ghost use Rattle.lexis.specs.Sizes.{max_text, max_tokens, max_brackets, max_parameters};
ghost use Rattle.lexis.specs.Lexer.{Token};
ghost use Rattle.syntax.specs.Tree.{Value, Result};
ghost use Rattle.syntax.specs.Grammar.{literals};
ghost use Rattle.syntax.specs.Parser.{value, header, operations};
ghost use Rattle.syntax.specs.Parser.Parse.{ok};
ghost use Rattle.syntax.specs.Table.{place_of};
ghost use Rattle.syntax.specs.Tokens.{from};
ghost use Rattle.lists.specs.Code as C;
ghost use Rattle.lists.specs.Fault.{fault};
ghost use Rattle.lists.specs.Best.{clean, meant};
ghost use Rattle.lists.specs.Masks.{mask_of};
ghost use Rattle.lists.specs.Types.{result_code};
ghost use Rattle.index.specs.Indexed.{Walkable};
ghost use Rattle.lists.specs.Headers.{Reads, param_row, result_row, Roomy, Ready, Marks, Numbers, OfDefault, OfParameter, OfParameters, OfResult};
ghost use Rattle.lists.specs.Headers.{OfResults, OfHeader, OfHeaders, Carried, empty_row, onward_row};

use crate::best::Best;
use crate::directory::{Name, store_operation, store_parameter};
use crate::fitting::fits_item;
use crate::mask::extended;
use crate::types::{SEVERAL, TypeAt, type_of};
use index::{enter, keep_word, set_word, word_of};
use lexis::limits::Limits;
use lexis::refusal::Refusal;
use lexis::symbol::Symbol;
use syntax::tokens::Tokens;
use syntax::value::Leaves;

// Where the walk along a header has come to: the first fault, the place it goes on at, how many items of the row it has met, how many parameters of the list
// there are, and the mask of those of the row without a default.
#[derive(Clone, Copy)]
pub struct Row {
    pub best: Best,
    pub at: usize,
    pub index: usize,
    pub params: usize,
    pub required: u32,
}

// The default of a parameter: its place, if there is one, the place after it, and its fault.
#[derive(Clone, Copy)]
pub struct Default {
    pub at: Option<usize>,
    pub end: usize,
    pub best: Best,
}

// The first fault of a list, and how many operations it has.
#[derive(Clone, Copy)]
pub struct Ruled {
    pub best: Best,
    pub count: usize,
}

// ---- names

// Whether the name at place i is among those of header k, among which it then is.
fn named(tokens: &Tokens<'_>, index: &mut [u16], i: usize, k: usize) -> bool
    requires i_lt_n { (i < tokens.now.count) × (tokens.now.count ≤ max_tokens) × (k ≤ tokens.now.count) }
    requires walkable_2 { Walkable index.old i tokens.now.count }
    ensures walkable { Walkable index.new (i + 1) tokens.now.count }
    ensures meaning { Marks tokens.now.text.now tokens.now.table.now index.old index.new i k result }
{
    let p = enter(tokens, &mut *index, i);
    let again = word_of(index, p, Name::HEADER) == k;
    set_word(index, p, Name::HEADER, k);
    again
}

// Whether the name at place i is among those of the k operations before it, to which it is added.
fn operation(tokens: &Tokens<'_>, index: &mut [u16], i: usize, k: usize) -> bool
    requires i_lt_n { (i < tokens.now.count) × (tokens.now.count ≤ max_tokens) × (k ≤ tokens.now.count) }
    requires walkable_2 { Walkable index.old i tokens.now.count }
    ensures walkable { Walkable index.new (i + 1) tokens.now.count }
    ensures meaning { Numbers tokens.now.text.now tokens.now.table.now index.old index.new i k result }
{
    let p = enter(tokens, &mut *index, i);
    keep_word(index, p, Name::OPERATION, k + 1).is_some()
}

// ---- one parameter

// The fault 14 at the token at place i.
fn misfit_at(tokens: &Tokens<'_>, i: usize) -> Best
    requires { length tokens.now.text.now ≤ max_text }
    ensures { meant result ≡ some (fault C.bad_default (place_of (length tokens.now.text.now) (from tokens.now i))) }
{
    Best::one(Refusal::BadDefault, tokens.place_at(i) as u32)
}

// The place after the value without names at place v.
fn value_end(tokens: &Tokens<'_>, v: usize) -> usize
    ensures { (x : Value) (us : List Token) → value literals max_brackets (from tokens.now v) ≡ ok x us
        → us ≡ from tokens.now result }
{
    let Ok(end) = tokens.value(v, Leaves::Literals, Limits::BRACKETS) else {
        return tokens.count;
    };
    end
}

// The default after the type ty, which stands at place t.
fn default_of(tokens: &Tokens<'_>, t: usize, ty: TypeAt) -> Default
    requires { (length tokens.now.text.now ≤ max_text) × (ty.end ≤ tokens.now.count + 1) × (tokens.now.count ≤ max_tokens) }
    ensures range { unwrap_or result.at 0 ≤ tokens.now.count }
    ensures meaning { OfDefault tokens.now.text.now tokens.now.table.now tokens.now.count t ty result }
{
    let end = ty.end;
    if tokens.symbol_at(end) != Symbol::EQUAL {
        return Default {
            at: None,
            end: end,
            best: Best::none(),
        };
    }
    let v = end + 1;
    // A copy: the check covers no reference that is passed twice where its own references may have two lifetimes.
    let types = *tokens;
    let Some(next) = fits_item(tokens, v, &types, t, ty.kinds, ty.pairs) else {
        return Default {
            at: Some(v),
            end: value_end(tokens, v),
            best: misfit_at(tokens, v),
        };
    };
    Default {
        at: Some(v),
        end: next,
        best: Best::none(),
    }
}

// The mask of k parameters without a default, with one parameter more. There is none for more parameters than an operation may have.
fn required(mask: u32, k: usize, is_in: bool) -> u32
    ensures { (bs : List Bool) → mask ≡ mask_of bs → length bs ≡ k → k < max_parameters → result ≡ mask_of (bs ++ (is_in ∷ [])) }
{
    if Limits::PARAMETERS <= k {
        return mask;
    }
    extended(mask, k as u32, is_in)
}

// The parameter at the row's place.
fn parameter(tokens: &Tokens<'_>, k: usize, index: &mut [u16], words: &mut [u32], row: Row) -> Row
    requires ready { Ready tokens.now.text.now index.old tokens.now.count k row }
    requires roomy { Roomy words.old tokens.now.count }
    requires at_bound { row.at + 4 ≤ tokens.now.count }
    ensures walkable { Walkable index.new (row.at + 1) tokens.now.count }
    ensures meaning { OfParameter tokens.now.text.now tokens.now.table.now index.old index.new
        words.old words.new tokens.now.count k row result }
{
    let at = row.at;
    let again = named(tokens, index, at, k);
    let ty = type_of(tokens, at + 2);
    let d = default_of(tokens, at + 2, ty);
    store_parameter(
        words,
        row.params,
        at as u32,
        ty.code(),
        d.at.unwrap_or(0) as u32,
    );
    let place = tokens.start_at(at);
    let beyond = row.index == Limits::PARAMETERS;
    let best = row
        .best
        .or_refusal_if(beyond, Refusal::OverSize, place)
        .or_refusal_if(again, Refusal::RepeatedName, place);
    Row {
        best: best.earlier(d.best),
        at: d.end,
        index: row.index + 1,
        params: row.params + 1,
        required: required(row.required, row.index, d.at.is_none()),
    }
}

impl Row {
    // A row of which nothing is met yet.
    fn empty(best: Best, at: usize, params: usize, required: u32) -> Row
        ensures { result ≡ empty_row best at params required }
    {
        Row {
            best: best,
            at: at,
            index: 0,
            params: params,
            required: required,
        }
    }

    // One place on.
    fn onward(self) -> Row
        requires { self.at ≤ max_tokens }
        ensures { result ≡ onward_row self }
    {
        let best = self.best;
        Row {
            best: best,
            at: self.at + 1,
            index: self.index,
            params: self.params,
            required: self.required,
        }
    }
}

// The parameters from the row's place on; the row is left after the bracket that closes them.
fn parameters(tokens: &Tokens<'_>, k: usize, index: &mut [u16], words: &mut [u32], row: Row) -> Row
    requires ready_2 { Ready tokens.now.text.now index.old tokens.now.count k row }
    requires roomy { Roomy words.old tokens.now.count }
    requires reads { Reads param_row tokens.now.text.now tokens.now.table.now tokens.now.count row.at }
    ensures ready { Ready tokens.now.text.now index.new tokens.now.count k result }
    ensures meaning { OfParameters tokens.now.text.now tokens.now.table.now index.old index.new
        words.old words.new tokens.now.count k row result }
{
    // No `for`: the tokens say where the parameters end.
    let mut r = row;
    loop {
        r = parameter(tokens, k, &mut *index, &mut *words, r);
        if tokens.symbol_at(r.at) != Symbol::COMMA {
            return r.onward();
        }
        r = r.onward();
    }
}

// ---- results

// The result at the row's place.
fn result(tokens: &Tokens<'_>, k: usize, index: &mut [u16], row: Row) -> Row
    requires ready { Ready tokens.now.text.now index.old tokens.now.count k row }
    requires at_lt_n { row.at < tokens.now.count }
    ensures walkable { Walkable index.new (row.at + 1) tokens.now.count }
    ensures carried { Carried row result }
    ensures meaning { OfResult tokens.now.text.now tokens.now.table.now index.old index.new tokens.now.count k row result }
{
    let at = row.at;
    let again = named(tokens, index, at, k);
    let ty = type_of(tokens, at + 2);
    let place = tokens.start_at(at);
    let beyond = row.index == Limits::RESULTS;
    Row {
        best: row
            .best
            .or_refusal_if(beyond, Refusal::OverSize, place)
            .or_refusal_if(again, Refusal::RepeatedName, place),
        at: ty.end,
        index: row.index + 1,
        params: row.params,
        required: row.required,
    }
}

// The results from the row's place on; the row is left after the bracket that closes them.
fn results(tokens: &Tokens<'_>, k: usize, index: &mut [u16], row: Row) -> Row
    requires ready_2 { Ready tokens.now.text.now index.old tokens.now.count k row }
    requires reads { Reads result_row tokens.now.text.now tokens.now.table.now tokens.now.count row.at }
    ensures ready { Ready tokens.now.text.now index.new tokens.now.count k result }
    ensures carried { Carried row result }
    ensures meaning { OfResults tokens.now.text.now tokens.now.table.now index.old index.new tokens.now.count k row result }
{
    // No `for`: the tokens say where the results end.
    let mut r = row;
    loop {
        r = result(tokens, k, &mut *index, r);
        if tokens.symbol_at(r.at) != Symbol::COMMA {
            return r.onward();
        }
        r = r.onward();
    }
}

// The number of the type of the only one of the results from place `at` on, or the one for several.
fn result_code(tokens: &Tokens<'_>, at: usize, count: usize) -> u32
    requires { (tokens.now.count ≤ max_tokens) × (at ≤ tokens.now.count) }
    ensures { (rs : List Result) (us : List Token) → result_row (from tokens.now at) ≡ ok rs us
        → count ≡ length rs → result ≡ result_code rs }
{
    if count != 1 {
        return SEVERAL;
    }
    type_of(tokens, at + 2).code()
}

// ---- headers

// Header k, at the row's place.
fn header(tokens: &Tokens<'_>, k: usize, index: &mut [u16], words: &mut [u32], row: Row) -> Row
    requires ready_2 { Ready tokens.now.text.now index.old tokens.now.count k row }
    requires roomy { Roomy words.old tokens.now.count }
    requires reads { Reads (header max_brackets) tokens.now.text.now tokens.now.table.now tokens.now.count row.at }
    ensures ready { Ready tokens.now.text.now index.new tokens.now.count (k + 1) result }
    ensures meaning { OfHeader tokens.now.text.now tokens.now.table.now index.old index.new
        words.old words.new tokens.now.count k row result }
{
    let q = row.at + 1;
    let again = operation(tokens, &mut *index, q, k);
    let beyond = row.best.or_refusal_if(
        k == Limits::OPERATIONS,
        Refusal::OverSize,
        tokens.start_at(row.at),
    );
    let best = beyond.or_refusal_if(again, Refusal::RepeatedName, tokens.start_at(q));
    let ps = parameters(
        tokens,
        k + 1,
        &mut *index,
        &mut *words,
        Row::empty(best, q + 2, row.params, 0),
    );
    let from = ps.at + 2;
    let rs = results(
        tokens,
        k + 1,
        index,
        Row::empty(ps.best, from, ps.params, ps.required),
    );
    let code = result_code(tokens, from, rs.index);
    store_operation(
        words,
        k,
        q as u32,
        row.params as u32,
        rs.params as u32,
        rs.required,
        from as u32,
        code,
    );
    Row::empty(rs.best, rs.at, rs.params, 0)
}

// All headers of a list.
pub fn headers(tokens: &Tokens<'_>, index: &mut [u16], words: &mut [u32]) -> Ruled
    requires ready { Ready tokens.now.text.now index.old tokens.now.count 0 (empty_row clean 0 0 0) }
    requires roomy { Roomy words.old tokens.now.count }
    requires reads { Reads (operations max_brackets) tokens.now.text.now tokens.now.table.now tokens.now.count 0 }
    ensures walkable { Walkable index.new tokens.now.count tokens.now.count }
    ensures few { result.count ≤ tokens.now.count }
    ensures meaning { OfHeaders tokens.now.text.now tokens.now.table.now index.old index.new
        words.old words.new tokens.now.count 0 (empty_row clean 0 0 0) result }
{
    // No `for`: each header says where the next one begins.
    let mut k = 0;
    let mut r = Row::empty(Best::none(), 0, 0, 0);
    while r.at < tokens.count {
        r = header(tokens, k, &mut *index, &mut *words, r);
        k += 1;
    }
    let best = r.best;
    Ruled {
        best: best,
        count: k,
    }
}
