// Lists in round brackets: names, parameters, results and arguments.
ghost use Rattle.std.specs.Prelude.{◌≡◌, ◌≤◌};
ghost use Rattle.lexis.specs.Sizes.{max_brackets};
ghost use Rattle.lexis.specs.Symbol.{right_round};
ghost use Rattle.syntax.specs.Parser.{default, typed_name, param, argument, plain, commas, row};
ghost use Rattle.syntax.specs.Tokens.{answer, from, told};
ghost use Rattle.syntax.specs.Inner.{is_label, reader};

use crate::Parsed;
use crate::tokens::Tokens;
use crate::types::type_at;
use crate::value::Leaves;
use lexis::limits::Limits;
use lexis::symbol::Symbol;

// What a list is of. An enum and no closure: the contract of a reader names what it reads.
#[derive(Clone, Copy)]
pub enum Item {
    Name,
    Parameter,
    Result,
    Argument,
}

// The default of a parameter, where there is one.
fn default(tokens: &Tokens<'_>, at: usize) -> Parsed
    requires { at ≤ tokens.now.count }
    ensures { told tokens.now result ≡ answer tokens.now (default max_brackets) at }
{
    if tokens.symbol_at(at) != Symbol::EQUAL {
        return Ok(at);
    }
    tokens.value(at + 1, Leaves::Literals, Limits::BRACKETS)
}

// A name, a colon and a type.
fn result(tokens: &Tokens<'_>, at: usize) -> Parsed
    ensures { told tokens.now result ≡ answer tokens.now (typed_name max_brackets) at }
{
    let colon = tokens.expect(at, Symbol::NAME)?;
    let ty = tokens.expect(colon, Symbol::COLON)?;
    type_at(tokens, ty, Limits::BRACKETS)
}

// A result with a default, or without one.
fn parameter(tokens: &Tokens<'_>, at: usize) -> Parsed
    ensures { told tokens.now result ≡ answer tokens.now (param max_brackets) at }
{
    let next = result(tokens, at)?;
    default(tokens, next)
}

// A value, or a name, an equals sign and a value.
fn argument(tokens: &Tokens<'_>, at: usize) -> Parsed
    ensures { told tokens.now result ≡ answer tokens.now (argument max_brackets) at }
{
    if tokens.is_label(at) {
        return tokens.value(at + 2, Leaves::Both, Limits::BRACKETS);
    }
    tokens.value(at, Leaves::Both, Limits::BRACKETS)
}

// One item of a list. An enum and no closure: the clause of `list` names the reader by its item; with a closure each call would have to state it.
pub fn one(tokens: &Tokens<'_>, at: usize, which: Item) -> Parsed
    ensures { told tokens.now result ≡ answer tokens.now (reader which) at }
{
    match which {
        Item::Name => tokens.expect(at, Symbol::NAME),
        Item::Parameter => parameter(tokens, at),
        Item::Result => result(tokens, at),
        Item::Argument => argument(tokens, at),
    }
}

impl Tokens<'_> {
    // Whether a name and an equals sign stand at place `at`.
    pub fn is_label(&self, at: usize) -> bool
        ensures { result ≡ is_label (from self.now at) }
    {
        self.symbol_at(at) == Symbol::NAME && self.symbol_at(at + 1) == Symbol::EQUAL
    }

    // Items parted by commas, at least one, and the closing bracket.
    pub fn list(&self, at: usize, which: Item) -> Parsed
        ensures { told self.now result ≡ answer self.now (row plain (commas right_round) (reader which)) at }
    {
        // No `for`: the tokens say where the list ends.
        let mut i = at;
        loop {
            let next = one(self, i, which)?;
            if self.symbol_at(next) != Symbol::COMMA {
                return self.expect(next, Symbol::RIGHT_ROUND);
            }
            i = next + 1;
        }
    }
}
