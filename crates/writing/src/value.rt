// The pieces of a value, read at a type. Value and type stand in two token tables, or both in one.
ghost use Rattle.std.specs.Prelude.{◌≡◌, ◌||◌, List, ℕ, ◌+◌, ◌<◌, ◌≤◌, eqb};
ghost use Rattle.std.proofs.Math.Option.{some};
ghost use Rattle.lexis.specs.Lexer.{Token};
ghost use Rattle.lexis.specs.Symbol.{minus};
ghost use Rattle.syntax.specs.Tree.{Value, Ty};
ghost use Rattle.syntax.specs.Grammar.{Leaves, IsTypeName};
ghost use Rattle.syntax.specs.Parser.{value, type};
ghost use Rattle.syntax.specs.Parser.Parse.{ok};
ghost use Rattle.syntax.specs.Table.{token_at};
ghost use Rattle.syntax.specs.Tokens.{from};
ghost use Rattle.lists.specs.Reading.{Val, read_at};
ghost use Rattle.lists.specs.Types.{pairs_of};
ghost use Rattle.writing.specs.Layout.{pieces};
ghost use Rattle.writing.specs.Writing.{Puts, AsLexed, Ranged, leaf_at, PutsLeaf, signs_of, Opens, PutsValue, PutsArray, PutsTuple};

use crate::spelling::{put_extent, put_number, put_string, put_truth};
use crate::writer::Writer;
use index::token::bytes_at;
use lexis::kind::Kind;
use lexis::limits::Limits;
use lexis::symbol::Symbol;
use lists::fitting::shape_at;
use syntax::tokens::{Tokens, below_256};

// The kinds of leaf, as words of a token record. Numbers and no `Kind`: a record in a work area has the number, and is compared as it is.
const NAME: u32 = Kind::Name as u32;

const STRING: u32 = Kind::String as u32;

const TRUTH: u32 = Kind::Truth as u32;

// Puts a leaf of this kind and spelling, with a sign before it or without one, at a type word.
fn put_spelt(out: &mut Writer<'_>, kind: u32, word: &[u8], at: u32, negative: bool)
    requires as_lexed { AsLexed kind word.now }
    ensures { (t : Token) (u : Ty) (w : Val) → t.kind ≡ kind → t.bytes ≡ word.now → IsTypeName at u → leaf_at u negative t ≡ some w
        → Puts (pieces w) out.old out.new }
{
    if kind == NAME {
        return out.put_word(word);
    }
    if kind == STRING {
        return put_string(out, word);
    }
    if kind == TRUTH {
        return put_truth(out, word);
    }
    if at == Symbol::EXTENT {
        return put_extent(out, word, negative);
    }
    if word.len() <= Limits::NUMBER {
        put_number(out, word, negative);
    }
}

// Puts the leaf at place i, with a sign before it or without one, at a type word.
fn put_leaf(out: &mut Writer<'_>, tokens: &Tokens<'_>, i: usize, at: u32, negative: bool)
    requires ranged { Ranged tokens.now.text.now tokens.now.table.now tokens.now.count }
    requires i_lt_n { i < tokens.now.count }
    ensures { (u : Ty) (w : Val) → IsTypeName at u → leaf_at u negative (token_at tokens.now.text.now tokens.now.table.now i) ≡ some w
        → Puts (pieces w) out.old out.new }
{
    let kind = tokens.table[i * Limits::RECORD_WORDS];
    put_spelt(out, kind, bytes_at(tokens, i), at, negative);
}

// Puts the leaf that begins at place v with the terminal c, and gives the place after it: where c is a sign, the number stands after it.
fn put_plain(out: &mut Writer<'_>, tokens: &Tokens<'_>, v: usize, c: u32, at: u32) -> usize
    requires ranged { Ranged tokens.now.text.now tokens.now.table.now tokens.now.count }
    requires v_le_n { v ≤ tokens.now.count }
    ensures range { (v ≤ result) × (result ≤ tokens.now.count) }
    ensures meaning { PutsLeaf tokens.now.text.now tokens.now.table.now tokens.now.count (v + signs_of c) (eqb c minus) at
        out.old out.new result }
{
    let negative = c == Symbol::MINUS;
    let i = v + usize::from(negative);
    if tokens.count <= i {
        return v;
    }
    put_leaf(out, tokens, i, at, negative);
    i + 1
}

// Puts the value at place v, read at the base at place t under k pairs of square brackets, and gives the place after it. A leaf is put at once: most
// values are.
#[cycle(put_array_put_base_put_nested_put_tuple)]
fn put_base(
    out: &mut Writer<'_>,
    values: &Tokens<'_>,
    v: usize,
    types: &Tokens<'_>,
    t: usize,
    k: usize,
) -> usize
    requires ranged { Ranged values.now.text.now values.now.table.now values.now.count }
    requires v_le_vn { v ≤ values.now.count }
    ensures range { (v ≤ result) × (result ≤ values.now.count) }
    ensures meaning { PutsValue values.now.text.now values.now.table.now values.now.count v (from types.now t) k
        out.old out.new result }
{
    let c = values.symbol_at(v);
    if c == Symbol::LEFT_SQUARE || c == Symbol::LEFT_ROUND {
        return put_nested(out, values, v, c, types, t, k);
    }
    below_256(values.text);
    put_plain(out, values, v, c, types.symbol_at(t))
}

// The same for an array or a tuple, which the terminal c opens.
#[cycle(put_array_put_base_put_nested_put_tuple)]
fn put_nested(
    out: &mut Writer<'_>,
    values: &Tokens<'_>,
    v: usize,
    c: u32,
    types: &Tokens<'_>,
    t: usize,
    k: usize,
) -> usize
    requires ranged { Ranged values.now.text.now values.now.table.now values.now.count }
    requires opens { Opens (from values.now v) c }
    ensures range { (v ≤ result) × (result ≤ values.now.count) }
    ensures meaning { PutsValue values.now.text.now values.now.table.now values.now.count v (from types.now t) k
        out.old out.new result }
{
    if c == Symbol::LEFT_SQUARE {
        if k == 0 {
            return v;
        }
        out.put_mark(b'[');
        return put_array(out, values, v + 1, types, t, k - 1);
    }
    if types.count <= t {
        return v;
    }
    out.put_mark(b'(');
    put_tuple(out, values, v + 1, types, t + 1)
}

// Puts the items of the array after its bracket at place v, each read at the base at place t under k pairs, and the closing bracket.
#[cycle(put_array_put_base_put_nested_put_tuple)]
fn put_array(
    out: &mut Writer<'_>,
    values: &Tokens<'_>,
    v: usize,
    types: &Tokens<'_>,
    t: usize,
    k: usize,
) -> usize
    requires ranged { Ranged values.now.text.now values.now.table.now values.now.count }
    requires v_le_vn { v ≤ values.now.count }
    ensures range { (v ≤ result) × (result ≤ values.now.count) }
    ensures meaning { PutsArray values.now.text.now values.now.table.now values.now.count v (from types.now t) k
        out.old out.new result }
{
    if values.symbol_at(v) == Symbol::RIGHT_SQUARE {
        out.put_mark(b']');
        return v + 1;
    }
    // No `for`: the tokens say where the items end.
    let mut i = v;
    loop {
        let next = put_base(out, values, i, types, t, k);
        let c = values.symbol_at(next);
        if c == Symbol::RIGHT_SQUARE {
            out.put_mark(b']');
            return next + 1;
        }
        if c != Symbol::COMMA {
            return next;
        }
        out.put_mark(b',');
        i = next + 1;
    }
}

// Puts the items of the tuple after its bracket at place v, each read at its own type from place t on, and the closing bracket.
#[cycle(put_array_put_base_put_nested_put_tuple)]
fn put_tuple(
    out: &mut Writer<'_>,
    values: &Tokens<'_>,
    v: usize,
    types: &Tokens<'_>,
    t: usize,
) -> usize
    requires ranged { Ranged values.now.text.now values.now.table.now values.now.count }
    requires v_le_vn { v ≤ values.now.count }
    ensures range { (v ≤ result) × (result ≤ values.now.count) }
    ensures meaning { PutsTuple values.now.text.now values.now.table.now values.now.count v (from types.now t)
        out.old out.new result }
{
    // No `for`: the tokens say where the items end, and where the next type begins.
    let mut i = v;
    let mut j = t;
    loop {
        let u = shape_at(types, j);
        let next = put_base(out, values, i, types, j, u.pairs);
        let c = values.symbol_at(next);
        if c == Symbol::RIGHT_ROUND {
            out.put_mark(b')');
            return next + 1;
        }
        if c != Symbol::COMMA {
            return next;
        }
        out.put_mark(b',');
        i = next + 1;
        j = u.at + 1;
    }
}

// Puts the value at place v, read at the type at place t, which has k pairs of square brackets.
pub fn put_value<'t>(
    out: &mut Writer<'_>,
    values: &Tokens<'t>,
    v: usize,
    types: &Tokens<'t>,
    t: usize,
    k: usize,
)
    requires ranged { Ranged values.now.text.now values.now.table.now values.now.count }
    ensures { (m : Leaves) (b : ℕ) (x : Value) (us : List Token) (c : ℕ) (u : Ty) (ws : List Token) (w : Val)
        → value m b (from values.now v) ≡ ok x us
        → type c (from types.now t) ≡ ok u ws → k ≡ pairs_of u → read_at x u ≡ some w
        → Puts (pieces w) out.old out.new }
{
    if v <= values.count {
        put_base(out, values, v, types, t, k);
    }
}
