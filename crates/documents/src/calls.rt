// Calls in a body: where the parts of a call stand.
ghost use Rattle.std.specs.Prelude.{◌≡◌, ◌+◌, ◌≤◌, ◌<◌, min, cond};
ghost use Rattle.lexis.specs.Symbol.{semicolon};
ghost use Rattle.syntax.specs.Parser.{begins};
ghost use Rattle.syntax.specs.Tokens.{from};
ghost use Rattle.syntax.specs.Inner.{the_end};
ghost use Rattle.lists.specs.Scans.{from_symbol};

use lexis::symbol::Symbol;
use syntax::tokens::Tokens;

// The first place from `at` on where the terminal s stands, or the end.
pub fn find(tokens: &Tokens<'_>, at: usize, s: u32) -> usize
    requires s_lt_the_end { s < the_end }
    ensures { (min at tokens.now.count ≤ result) × (result ≤ tokens.now.count)
        × (from tokens.now result ≡ from_symbol s (from tokens.now at)) }
{
    for i in at..tokens.count {
        if tokens.symbol_at(i) == s {
            return i;
        }
    }
    tokens.count
}

// The place after a call whose arguments close at place `close`: past a semicolon, where there is one.
pub fn after_call(tokens: &Tokens<'_>, close: usize) -> usize
    requires close_le_n { close ≤ tokens.now.count }
    ensures { result ≡ cond (begins semicolon (from tokens.now (close + 1))) (close + 2) (close + 1) }
{
    if tokens.symbol_at(close + 1) == Symbol::SEMICOLON {
        return close + 2;
    }
    close + 1
}
