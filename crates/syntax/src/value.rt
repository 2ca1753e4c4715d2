// Values: names, literals, arrays and tuples.
ghost use Rattle.std.specs.Prelude.{◌≡◌, ◌<◌};
ghost use Rattle.syntax.specs.Grammar.{takes_names, takes_literals};
ghost use Rattle.syntax.specs.Parser.{value, values, commas, array_items, tuple_items, row};
ghost use Rattle.syntax.specs.Tokens.{answer, from, told};
ghost use Rattle.syntax.specs.Inner.{the_end, lookahead, leaves_of, is_leaf, after_sign, opens};

use crate::tokens::Tokens;
use crate::{ParseError, Parsed};
use lexis::symbol::Symbol;

// What a value's leaves may be: names on a left side, literals in a default, both in an argument.
#[derive(Clone, Copy)]
pub enum Leaves {
    Names,
    Literals,
    Both,
}

impl Leaves {
    // Two questions and two tests: an argument's leaves may be either.
    fn take_names(self) -> bool
        ensures { result ≡ takes_names (leaves_of self) }
    {
        matches!(self, Leaves::Names | Leaves::Both)
    }

    fn take_literals(self) -> bool
        ensures { result ≡ takes_literals (leaves_of self) }
    {
        matches!(self, Leaves::Literals | Leaves::Both)
    }

    // Whether the terminal s is a leaf of such a value.
    #[tactic(auto, unfolding(crate::specs::Inner::is_leaf))]
    fn have(self, s: u32) -> bool
        ensures { result ≡ is_leaf (leaves_of self) s }
    {
        self.take_names() && s == Symbol::NAME
            || self.take_literals() && (s == Symbol::NUMBER || s == Symbol::LITERAL)
    }
}

// Whether the terminal s opens an array or a tuple.
fn opens(s: u32) -> bool
    ensures { result ≡ opens s }
{
    matches!(s, Symbol::LEFT_SQUARE | Symbol::LEFT_ROUND)
}

// What begins at place `at`, where s stands, with neither a leaf nor a bracket: a sign and the number after it, where literals may stand; else a fault.
fn negative(tokens: &Tokens<'_>, at: usize, s: u32, leaves: Leaves) -> Parsed
    requires { s ≡ lookahead (from tokens.now at) }
    ensures { told tokens.now result ≡ answer tokens.now (after_sign (leaves_of leaves)) at }
{
    if s != Symbol::MINUS || !leaves.take_literals() {
        return Err(ParseError::Unexpected(at));
    }
    tokens.expect(at + 1, Symbol::NUMBER)
}

// A value where s stands, in which `room` brackets may be opened inside one another. Inlined: a leaf takes no call.
#[cycle(array_items_tuple_value_from)]
#[inline(always)]
fn value_from(tokens: &Tokens<'_>, at: usize, s: u32, leaves: Leaves, room: usize) -> Parsed
    requires { s ≡ lookahead (from tokens.now at) }
    ensures { told tokens.now result ≡ answer tokens.now (value (leaves_of leaves) room) at }
{
    if leaves.have(s) {
        return Ok(at + 1);
    }
    if !opens(s) {
        return negative(tokens, at, s, leaves);
    }
    if room == 0 {
        return Err(ParseError::TooDeep(at));
    }
    if s == Symbol::LEFT_SQUARE {
        return array(tokens, at + 1, leaves, room - 1);
    }
    tuple(tokens, at + 1, leaves, room - 1)
}

// The items of an array, after its bracket: none, or a row.
#[cycle(array_items_tuple_value_from)]
fn array(tokens: &Tokens<'_>, at: usize, leaves: Leaves, room: usize) -> Parsed
    ensures { told tokens.now result ≡ answer tokens.now (array_items (value (leaves_of leaves) room)) at }
{
    if tokens.symbol_at(at) == Symbol::RIGHT_SQUARE {
        return Ok(at + 1);
    }
    items(tokens, at, leaves, room, Symbol::RIGHT_SQUARE)
}

// The items of a tuple, after its bracket: at least two.
#[cycle(array_items_tuple_value_from)]
fn tuple(tokens: &Tokens<'_>, at: usize, leaves: Leaves, room: usize) -> Parsed
    ensures { told tokens.now result ≡ answer tokens.now (tuple_items (value (leaves_of leaves) room)) at }
{
    let first = value_from(tokens, at, tokens.symbol_at(at), leaves, room)?;
    let next = tokens.expect(first, Symbol::COMMA)?;
    items(tokens, next, leaves, room, Symbol::RIGHT_ROUND)
}

// Values parted by commas, at least one, and the closing terminal. A leaf, which an item is more often than not, is told here and not by a call.
#[cycle(array_items_tuple_value_from)]
pub(crate) fn items(
    tokens: &Tokens<'_>,
    at: usize,
    leaves: Leaves,
    room: usize,
    close: u32,
) -> Parsed
    requires { close < the_end }
    ensures { told tokens.now result ≡ answer tokens.now
        (row values (commas close) (value (leaves_of leaves) room)) at }
{
    // No `for`: the tokens say where the values end.
    let mut i = at;
    loop {
        let c = tokens.symbol_at(i);
        let next = if leaves.have(c) {
            i + 1
        } else {
            value_from(tokens, i, c, leaves, room)?
        };
        if tokens.symbol_at(next) != Symbol::COMMA {
            return tokens.expect(next, close);
        }
        i = next + 1;
    }
}

impl Tokens<'_> {
    // A value.
    #[inline(always)]
    pub fn value(&self, at: usize, leaves: Leaves, room: usize) -> Parsed
        ensures { told self.now result ≡ answer self.now (value (leaves_of leaves) room) at }
    {
        value_from(self, at, self.symbol_at(at), leaves, room)
    }
}
