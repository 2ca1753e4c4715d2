// Documents: a version, a graph and its calls.
ghost use Rattle.std.specs.Prelude.{◌≡◌, ◌≤◌};
ghost use Rattle.lexis.specs.Sizes.{max_brackets};
ghost use Rattle.lexis.specs.Symbol.{right_curly};
ghost use Rattle.syntax.specs.Parser.{call, plain, closed, row, parse_document};
ghost use Rattle.syntax.specs.Tokens.{answer, told};
ghost use Rattle.syntax.specs.Inner.{semicolon_of, inputs_of, graph_of};

use crate::list::Item;
use crate::tokens::Tokens;
use crate::value::{Leaves, items};
use crate::{ParseError, Parsed};
use lexis::limits::Limits;
use lexis::symbol::Symbol;

// A semicolon, where there is one.
fn semicolon(tokens: &Tokens<'_>, at: usize) -> Parsed
    requires { at ≤ tokens.now.count }
    ensures { told tokens.now result ≡ answer tokens.now semicolon_of at }
{
    if tokens.symbol_at(at) == Symbol::SEMICOLON {
        return Ok(at + 1);
    }
    Ok(at)
}

// A call: patterns, an equals sign, the operation's name, its arguments, and perhaps a semicolon.
fn call(tokens: &Tokens<'_>, at: usize) -> Parsed
    ensures { told tokens.now result ≡ answer tokens.now (call max_brackets) at }
{
    let name = items(tokens, at, Leaves::Names, Limits::BRACKETS, Symbol::EQUAL)?;
    let bracket = tokens.expect(name, Symbol::NAME)?;
    let arguments = tokens.expect(bracket, Symbol::LEFT_ROUND)?;
    let end = tokens.list(arguments, Item::Argument)?;
    semicolon(tokens, end)
}

// Calls, at least one, and the closing bracket.
fn body(tokens: &Tokens<'_>, at: usize) -> Parsed
    ensures { told tokens.now result ≡ answer tokens.now (row plain (closed right_curly) (call max_brackets)) at }
{
    // No `for`: the tokens say where the calls end.
    let mut i = at;
    loop {
        i = call(tokens, i)?;
        if tokens.symbol_at(i) == Symbol::RIGHT_CURLY {
            return Ok(i + 1);
        }
    }
}

// The version, the graph's name, and its inputs.
fn inputs(tokens: &Tokens<'_>) -> Parsed
    ensures { told tokens.now result ≡ answer tokens.now inputs_of 0 }
{
    let number = tokens.expect(0, Symbol::VERSION)?;
    let word = tokens.expect(number, Symbol::NUMBER)?;
    let name = tokens.expect(word, Symbol::GRAPH)?;
    let bracket = tokens.expect(name, Symbol::NAME)?;
    let names = tokens.expect(bracket, Symbol::LEFT_ROUND)?;
    tokens.list(names, Item::Name)
}

// All of a document, with its closing bracket.
fn graph_text(tokens: &Tokens<'_>) -> Parsed
    ensures { told tokens.now result ≡ answer tokens.now graph_of 0 }
{
    let arrow = inputs(tokens)?;
    let bracket = tokens.expect(arrow, Symbol::ARROW)?;
    let outputs = tokens.expect(bracket, Symbol::LEFT_ROUND)?;
    let opening = tokens.list(outputs, Item::Name)?;
    let calls = tokens.expect(opening, Symbol::LEFT_CURLY)?;
    body(tokens, calls)
}

// The syntax of a document.
pub fn document_syntax(tokens: &Tokens<'_>) -> Parsed
    ensures { told tokens.now result ≡ answer tokens.now parse_document 0 }
{
    let end = graph_text(tokens)?;
    if end < tokens.count {
        return Err(ParseError::Unexpected(end));
    }
    Ok(tokens.count)
}
