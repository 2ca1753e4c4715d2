// Types: a name or a tuple of types, and pairs of square brackets.
ghost use Rattle.std.specs.Prelude.{◌≡◌, ◌≤◌, ltb};
ghost use Rattle.lexis.specs.Symbol.{right_round};
ghost use Rattle.syntax.specs.Tree.Ty.{tensor};
ghost use Rattle.syntax.specs.Parser.{type, types, commas, tuple_types, dims, row};
ghost use Rattle.syntax.specs.Tokens.{answer, told};
ghost use Rattle.syntax.specs.Inner.{is_type_word, base_of};

use crate::tokens::Tokens;
use crate::{ParseError, Parsed};
use lexis::symbol::Symbol;

// Whether the terminal s names a type.
#[tactic(auto, unfolding(crate::specs::Inner::is_type_word))]
fn is_type_word(s: u32) -> bool
    ensures { result ≡ is_type_word s }
{
    matches!(
        s,
        Symbol::TENSOR | Symbol::EXTENT | Symbol::SCALAR | Symbol::LOGICAL | Symbol::STRING
    )
}

// Pairs of square brackets after a type.
fn pairs(tokens: &Tokens<'_>, at: usize, room: usize) -> Parsed
    requires { at ≤ tokens.now.count }
    ensures { told tokens.now result ≡ answer tokens.now (dims (ltb 0 room) tensor) at }
{
    // No `for`: the tokens say where the pairs end.
    let mut i = at;
    loop {
        if tokens.symbol_at(i) != Symbol::LEFT_SQUARE {
            return Ok(i);
        }
        if room == 0 {
            return Err(ParseError::TooDeep(i));
        }
        i = tokens.expect(i + 1, Symbol::RIGHT_SQUARE)?;
    }
}

// A type, in which `room` brackets may be opened inside one another.
#[cycle(base_tuple_type_type_at_type_items)]
pub fn type_at(tokens: &Tokens<'_>, at: usize, room: usize) -> Parsed
    ensures { told tokens.now result ≡ answer tokens.now (type room) at }
{
    let next = base(tokens, at, room)?;
    pairs(tokens, next, room)
}

// A type without its pairs of square brackets.
#[cycle(base_tuple_type_type_at_type_items)]
fn base(tokens: &Tokens<'_>, at: usize, room: usize) -> Parsed
    ensures { told tokens.now result ≡ answer tokens.now (base_of room) at }
{
    let s = tokens.symbol_at(at);
    if is_type_word(s) {
        return Ok(at + 1);
    }
    if s != Symbol::LEFT_ROUND {
        return Err(ParseError::Unexpected(at));
    }
    if room == 0 {
        return Err(ParseError::TooDeep(at));
    }
    tuple_type(tokens, at + 1, room - 1)
}

// The types of a tuple, after its bracket: at least two.
#[cycle(base_tuple_type_type_at_type_items)]
fn tuple_type(tokens: &Tokens<'_>, at: usize, room: usize) -> Parsed
    ensures { told tokens.now result ≡ answer tokens.now (tuple_types (type room)) at }
{
    let first = type_at(tokens, at, room)?;
    let next = tokens.expect(first, Symbol::COMMA)?;
    type_items(tokens, next, room)
}

// Types parted by commas, at least one, and the closing bracket. No item of `list`: the reader of a type calls this
// function in turn, and is lent the brackets that may still be opened.
#[cycle(base_tuple_type_type_at_type_items)]
fn type_items(tokens: &Tokens<'_>, at: usize, room: usize) -> Parsed
    ensures { told tokens.now result ≡ answer tokens.now (row types (commas right_round) (type room)) at }
{
    // No `for`: the tokens say where the types end.
    let mut i = at;
    loop {
        let next = type_at(tokens, i, room)?;
        if tokens.symbol_at(next) != Symbol::COMMA {
            return tokens.expect(next, Symbol::RIGHT_ROUND);
        }
        i = next + 1;
    }
}
