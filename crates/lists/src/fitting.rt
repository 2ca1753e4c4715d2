// Whether a value fits a type, and a left side the results of an operation. Value and type stand in two token tables.
ghost use Rattle.std.specs.Prelude.{◌≡◌, true, false, cond, List, ℕ, suc, ◌+◌, ◌-◌, ◌<◌, ◌≤◌, leb};
ghost use Rattle.lexis.specs.Sizes.{max_extent};
ghost use Rattle.lexis.specs.Number.{value_from, signed};
ghost use Rattle.lexis.specs.Lexer.{Token};
ghost use Rattle.lexis.specs.Symbol.{comma};
ghost use Rattle.syntax.specs.Tree.{Ty, Tys};
ghost use Rattle.syntax.specs.Tree.Ty.{tuple_of};
ghost use Rattle.syntax.specs.Tokens.{from};
ghost use Rattle.syntax.specs.Inner.{the_end, lookahead};
ghost use Rattle.lists.specs.Reading.{is_extent};
ghost use Rattle.lists.specs.Fitting.{leaf_fits_at, is_leaf_symbol, starts_leaf, leaf_answer, signed_answer, stacked, Several, Columns, OfShape};
ghost use Rattle.lists.specs.Fitting.{Within, is_whole, OfItem, BaseOf, OfValue, OfArray, OfEach, OfLeft, OfWhole, MatchesResults};

use crate::types::{LeafKinds, SEVERAL, TENSOR, kinds_in, pairs_in, takes, type_of};
use lexis::limits::Limits;
use lexis::symbol::Symbol;
use syntax::tokens::{Tokens, below_256};

// The functions here answer the place after the value where it fits.

// A number of fewer bytes fits an extent, whatever the bytes are.
const SHORT: usize = 8;

// The largest number that fits an extent after a sign, or without one.
fn extent_bound(negative: bool) -> u64
    ensures { result ≡ cond negative (suc max_extent) max_extent }
{
    if negative {
        return Limits::EXTENT + 1;
    }
    Limits::EXTENT
}

// Whether the number that digits spell is at most this.
fn is_at_most(w: &[u8], bound: u64) -> bool
    requires { bound ≤ suc max_extent }
    ensures { result ≡ leb (value_from 0 w.now) bound }
{
    let mut v = 0;
    for &b in w {
        v = v * 10 + u64::from(b.saturating_sub(b'0'));
        if bound < v {
            return false;
        }
    }
    true
}

// Whether the number that digits spell fits an extent, with a sign before them or without one. Few digits need no look.
fn is_extent(w: &[u8], negative: bool) -> bool
    ensures { result ≡ is_extent (signed negative (value_from 0 w.now)) }
{
    if w.len() < SHORT {
        return true;
    }
    is_at_most(w, extent_bound(negative))
}

// Whether the leaf at place `at`, with a sign before it or without one, fits a type word of these kinds.
fn leaf_fits(tokens: &Tokens<'_>, at: usize, kinds: u32, negative: bool) -> bool
    requires { at < tokens.now.count }
    ensures { result ≡ leaf_fits_at tokens.now.text.now tokens.now.table.now at kinds negative }
{
    let i = at * Limits::RECORD_WORDS;
    if !takes(kinds, tokens.table[i]) {
        return false;
    }
    if kinds != LeafKinds::EXTENT {
        return true;
    }
    let start = tokens.table[i + 1] as usize;
    let end = tokens.table[i + 2] as usize;
    is_extent(&tokens.text[start..end], negative)
}

// Whether the terminal s is a leaf.
pub fn is_leaf(s: u32) -> bool
    ensures { result ≡ is_leaf_symbol s }
{
    Symbol::NAME <= s && s <= Symbol::LITERAL
}

// Whether the terminal s begins a leaf: it is one, or a sign.
fn starts_leaf(s: u32) -> bool
    ensures { result ≡ starts_leaf s }
{
    is_leaf(s) || s == Symbol::MINUS
}

// The leaf at place `at`, with a sign before it or without one, against a type word of these kinds under k pairs of square brackets. Inlined
// into the loops over items, as `fits_signed` is.
#[inline(always)]
fn fits_leaf(tokens: &Tokens<'_>, at: usize, kinds: u32, k: usize, negative: bool) -> Option<usize>
    requires { at < tokens.now.count }
    ensures { result ≡ leaf_answer tokens.now.text.now tokens.now.table.now at kinds k negative }
{
    if k == 0 && leaf_fits(tokens, at, kinds, negative) {
        return Some(at + 1);
    }
    None
}

// The same for the leaf that begins at place `at` with the terminal s: where that is a sign, the number stands after it.
#[inline(always)]
fn fits_signed(tokens: &Tokens<'_>, at: usize, s: u32, kinds: u32, k: usize) -> Option<usize>
    requires { at < tokens.now.count }
    ensures { result ≡ signed_answer tokens.now.text.now tokens.now.table.now tokens.now.count at s kinds k }
{
    if s != Symbol::MINUS {
        return fits_leaf(tokens, at, kinds, k, false);
    }
    if tokens.count <= at + 1 {
        return None;
    }
    fits_leaf(tokens, at + 1, kinds, k, true)
}

// Whether the terminals s and w are a and b. One test, so that a caller's check has two branches and not three.
fn both(s: u32, a: u32, w: u32, b: u32) -> bool
    ensures yes { result ≡ true → (s ≡ a) × (w ≡ b) }
    ensures no { result ≡ false → s ≡ a → w ≡ b → ⊥ }
{
    s == a && w == b
}

// Whether the value at place v, which begins with the terminal s and no leaf, fits the base at place t, of these kinds, under k pairs of square
// brackets.
#[cycle(fits_array_fits_each_fits_nested_fits_one)]
fn fits_nested(
    values: &Tokens<'_>,
    v: usize,
    s: u32,
    types: &Tokens<'_>,
    t: usize,
    kinds: u32,
    k: usize,
) -> Option<usize>
    requires { (s ≡ lookahead (from values.now v)) × (starts_leaf s ≡ false) }
    ensures range { Within values.now.count v result }
    ensures meaning { OfValue values.now.text.now values.now.table.now values.now.count v (from types.now t) kinds k result }
{
    if s == Symbol::LEFT_SQUARE {
        if k == 0 {
            return None;
        }
        return fits_array(values, v + 1, types, t, kinds, k - 1);
    }
    if k != 0 {
        return None;
    }
    if !both(
        s,
        Symbol::LEFT_ROUND,
        types.symbol_at(t),
        Symbol::LEFT_ROUND,
    ) {
        return None;
    }
    let close = Symbol::RIGHT_ROUND;
    fits_each(values, v + 1, close, types, t + 1, 0)
}

// Whether the value at place v fits the base at place t, of these kinds, under k pairs of square brackets. Most values are leaves.
#[cycle(fits_array_fits_each_fits_nested_fits_one)]
#[inline(always)]
fn fits_one(
    values: &Tokens<'_>,
    v: usize,
    types: &Tokens<'_>,
    t: usize,
    kinds: u32,
    k: usize,
) -> Option<usize>
    ensures range { Within values.now.count v result }
    ensures meaning { OfValue values.now.text.now values.now.table.now values.now.count v (from types.now t) kinds k result }
{
    let s = values.symbol_at(v);
    if starts_leaf(s) {
        below_256(values.text);
        return fits_signed(values, v, s, kinds, k);
    }
    fits_nested(values, v, s, types, t, kinds, k)
}

// Whether the items of the array after its bracket at place v fit the base at place t under k pairs of square brackets. A leaf is settled in the
// loop, and only brackets take a call.
#[cycle(fits_array_fits_each_fits_nested_fits_one)]
fn fits_array(
    values: &Tokens<'_>,
    v: usize,
    types: &Tokens<'_>,
    t: usize,
    kinds: u32,
    k: usize,
) -> Option<usize>
    ensures range { Within values.now.count v result }
    ensures meaning { OfArray values.now.text.now values.now.table.now values.now.count v (from types.now t) kinds k result }
{
    below_256(values.text);
    if values.symbol_at(v) == Symbol::RIGHT_SQUARE {
        return Some(v + 1);
    }
    // No `for`: the tokens say where the items end.
    let mut i = v;
    loop {
        let c = values.symbol_at(i);
        let next = if starts_leaf(c) {
            fits_signed(values, i, c, kinds, k)?
        } else {
            fits_nested(values, i, c, types, t, kinds, k)?
        };
        let s = values.symbol_at(next);
        if s == Symbol::RIGHT_SQUARE {
            return Some(next + 1);
        }
        if s != Symbol::COMMA {
            return None;
        }
        i = next + 1;
    }
}

// Whether the items from place v up to the terminal `close` fit the types from place t up to a bracket, each after `lead` tokens.
#[cycle(fits_array_fits_each_fits_nested_fits_one)]
fn fits_each(
    values: &Tokens<'_>,
    v: usize,
    close: u32,
    types: &Tokens<'_>,
    t: usize,
    lead: usize,
) -> Option<usize>
    requires { (close < the_end) × (close ≡ comma → ⊥) × (t ≤ types.now.count) × (lead ≤ 2) }
    ensures range { Within values.now.count v result }
    ensures meaning { OfEach values.now.text.now values.now.table.now values.now.count v close (from types.now t) lead result }
{
    // No `for`: the tokens say where the items end, and where the next type begins.
    let mut i = v;
    let mut j = t;
    loop {
        let from = j + lead;
        let u = type_of(types, from);
        let next = fits_one(values, i, types, from, u.kinds, u.pairs)?;
        let s = values.symbol_at(next);
        let w = types.symbol_at(u.end);
        if both(s, close, w, Symbol::RIGHT_ROUND) {
            return Some(next + 1);
        }
        if !both(s, Symbol::COMMA, w, Symbol::COMMA) {
            return None;
        }
        i = next + 1;
        j = u.end + 1;
    }
}

// Whether the value at place v fits the type at place t, which has these kinds and pairs.
pub fn fits_item(
    values: &Tokens<'_>,
    v: usize,
    types: &Tokens<'_>,
    t: usize,
    kinds: u32,
    pairs: usize,
) -> Option<usize>
    ensures range { Within values.now.count v result }
    ensures meaning { OfItem values.now.text.now values.now.table.now values.now.count v (from types.now t) kinds pairs result }
{
    fits_one(values, v, types, t, kinds, pairs)
}

// Whether an answer is a place, and the equals sign of a left side follows.
fn is_whole(tokens: &Tokens<'_>, answer: Option<usize>) -> bool
    ensures { result ≡ is_whole tokens.now.text.now tokens.now.table.now tokens.now.count answer }
{
    match answer {
        Some(next) => tokens.symbol_at(next) == Symbol::EQUAL,
        None => false,
    }
}

// Whether the left side at place `at` matches the base at place t, of these kinds, under k pairs of square brackets.
fn matches_one(
    doc: &Tokens<'_>,
    at: usize,
    list: &Tokens<'_>,
    t: usize,
    kinds: u32,
    k: usize,
) -> bool
    ensures { (c : ℕ) (w : Ty) (ws : List Token) → BaseOf kinds c (from list.now t) w ws
        → OfLeft doc.now.text.now doc.now.table.now doc.now.count at (stacked k w) result }
{
    let whole = fits_one(doc, at, list, t, kinds, k);
    if is_whole(doc, whole) {
        return true;
    }
    if k != 0 {
        return false;
    }
    if list.symbol_at(t) != Symbol::LEFT_ROUND {
        return false;
    }
    let close = Symbol::EQUAL;
    fits_each(doc, at, close, list, t + 1, 0).is_some()
}

// Whether the left side at place `at` is a tuple in brackets that matches the results at place `results`.
fn matches_bracketed(doc: &Tokens<'_>, at: usize, list: &Tokens<'_>, results: usize) -> bool
    requires { results ≤ list.now.count }
    ensures { (c : ℕ) (cs : Tys) (ws : List Token) → Columns 2 c (from list.now results) cs ws
        → OfWhole doc.now.text.now doc.now.table.now doc.now.count at (tuple_of cs) result }
{
    if doc.symbol_at(at) != Symbol::LEFT_ROUND {
        return false;
    }
    let close = Symbol::RIGHT_ROUND;
    let inner = fits_each(doc, at + 1, close, list, results, 2);
    is_whole(doc, inner)
}

// Whether the left side at place `at` matches the results at place `results`, at least two.
fn matches_several(doc: &Tokens<'_>, at: usize, list: &Tokens<'_>, results: usize) -> bool
    requires { results ≤ list.now.count }
    ensures { (c : ℕ) (cs : Tys) (ws : List Token) → Columns 2 c (from list.now results) cs ws → Several cs
        → OfLeft doc.now.text.now doc.now.table.now doc.now.count at (tuple_of cs) result }
{
    if matches_bracketed(doc, at, list, results) {
        return true;
    }
    let close = Symbol::EQUAL;
    fits_each(doc, at, close, list, results, 2).is_some()
}

// Whether the left side at place `at` of a document matches the results at place `results` of an operation list. `code` is the number of
// the only result's type, or `SEVERAL`. Most operations have one result of type `tensor`, which only a name matches.
pub fn matches(doc: &Tokens<'_>, at: usize, list: &Tokens<'_>, results: usize, code: u32) -> bool
    ensures { MatchesResults doc.now.text.now doc.now.table.now doc.now.count at (from list.now results) code result }
{
    if code == TENSOR {
        return doc.is_label(at);
    }
    if list.count <= results {
        return false;
    }
    if code == SEVERAL {
        return matches_several(doc, at, list, results);
    }
    let kinds = kinds_in(code);
    matches_one(doc, at, list, results + 2, kinds, pairs_in(code))
}

// The pairs of square brackets of a type, and the place after it.
#[derive(Clone, Copy)]
pub struct Shape {
    pub pairs: usize,
    pub at: usize,
}

// The shape of the type at place `at`.
pub fn shape_at(tokens: &Tokens<'_>, at: usize) -> Shape
    ensures range { result.at ≤ tokens.now.count + 1 }
    ensures meaning { OfShape tokens.now.text.now tokens.now.table.now tokens.now.count at result.pairs result.at }
{
    let u = type_of(tokens, at);
    Shape {
        pairs: u.pairs,
        at: u.end,
    }
}
