// Operation lists: headers, one after another.
ghost use Rattle.std.specs.Prelude.{◌≡◌};
ghost use Rattle.lexis.specs.Sizes.{max_brackets};
ghost use Rattle.syntax.specs.Parser.{header, parse_list};
ghost use Rattle.syntax.specs.Tokens.{answer, told};

use crate::Parsed;
use crate::list::Item;
use crate::tokens::Tokens;
use lexis::symbol::Symbol;

// A header: the operation's name, its parameters and its results.
fn header(tokens: &Tokens<'_>, at: usize) -> Parsed
    ensures { told tokens.now result ≡ answer tokens.now (header max_brackets) at }
{
    let name = tokens.expect(at, Symbol::FRAGMENT)?;
    let bracket = tokens.expect(name, Symbol::NAME)?;
    let parameters = tokens.expect(bracket, Symbol::LEFT_ROUND)?;
    let arrow = tokens.list(parameters, Item::Parameter)?;
    let second = tokens.expect(arrow, Symbol::ARROW)?;
    let results = tokens.expect(second, Symbol::LEFT_ROUND)?;
    tokens.list(results, Item::Result)
}

// The syntax of an operation list.
pub fn list_syntax(tokens: &Tokens<'_>) -> Parsed
    ensures { told tokens.now result ≡ answer tokens.now parse_list 0 }
{
    // No `for`: each header says where the next one begins.
    let mut i = 0;
    while i < tokens.count {
        i = header(tokens, i)?;
    }
    Ok(tokens.count)
}
