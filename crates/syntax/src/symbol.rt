// The readers of one token.
ghost use Rattle.std.specs.Prelude.{◌≡◌, ◌+◌, ◌*◌, ◌<◌, length};
ghost use Rattle.lexis.specs.Sizes.{record_words};
ghost use Rattle.syntax.specs.Inner.{lookahead, the_end};
ghost use Rattle.syntax.specs.Parser.{expect};
ghost use Rattle.syntax.specs.Table.{place_of, start_at};
ghost use Rattle.syntax.specs.Tokens.{answer, from, told};

use crate::tokens::Tokens;
use crate::{ParseError, Parsed};
use lexis::limits::Limits;
use lexis::symbol::Symbol;

impl Tokens<'_> {
    // The terminal of the token at place `at`: the mark that the lexer left for it.
    pub fn symbol_at(&self, at: usize) -> u32
        ensures { result ≡ lookahead (from self.now at) }
    {
        if self.count <= at {
            return Symbol::END;
        }
        self.table[Limits::MARKS + at]
    }

    // Where the token at place `at` starts, or the text's end.
    pub fn place_at(&self, at: usize) -> usize
        ensures { result ≡ place_of (length self.now.text.now) (from self.now at) }
    {
        if self.count <= at {
            return self.text.len();
        }
        self.table[at * Limits::RECORD_WORDS + 1] as usize
    }

    // Where the token at place i starts, as its record says.
    pub fn start_at(&self, i: usize) -> u32
        requires { i * record_words + 1 < length self.now.table.now }
        ensures { result ≡ start_at self.now.table.now i }
    {
        self.table[i * Limits::RECORD_WORDS + 1]
    }

    // The terminal s at place `at`.
    #[inline(always)]
    pub(crate) fn expect(&self, at: usize, s: u32) -> Parsed
        requires { s < the_end }
        ensures { told self.now result ≡ answer self.now (expect s) at }
    {
        if self.symbol_at(at) != s {
            return Err(ParseError::Unexpected(at));
        }
        Ok(at + 1)
    }
}
