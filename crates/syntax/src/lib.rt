// The syntax of operation lists and documents: readers over a table of tokens.
#![tactic(auto)]

mod graph;
pub mod list;
mod operations;
pub mod symbol;
pub mod tokens;
pub mod types;
pub mod value;

ghost use Rattle.std.specs.Prelude.{◌≡◌, true, ◌≤◌, length};
ghost use Rattle.lexis.specs.Answer.{counted_told};
ghost use Rattle.lexis.specs.Lexer.{lex};
ghost use Rattle.lexis.specs.Refusal.{refusal_number};
ghost use Rattle.lexis.specs.Sizes.{max_text, work_words};
ghost use Rattle.lexis.specs.Work.{Recorded, Room};
ghost use Rattle.syntax.specs.Table.{Holds};
ghost use Rattle.syntax.specs.Tokens.{code_of, from, place_in, told};
ghost use Rattle.syntax.specs.Read.{syntax_of, read_of};

use graph::document_syntax;
use lexis::lex_into;
use lexis::refusal::{Fault, Refusal};
use operations::list_syntax;
use tokens::Tokens;

// Why a text is no longer read, and the place of the token: no valid text has this token here; a bracket more than may be open.
#[derive(Clone, Copy, PartialEq, Eq)]
pub enum ParseError {
    Unexpected(usize),
    TooDeep(usize),
}

impl ParseError {
    // Why `read` refuses the text.
    fn refusal(self) -> Refusal
        ensures { refusal_number result ≡ code_of self }
    {
        match self {
            ParseError::Unexpected(_) => Refusal::Syntax,
            ParseError::TooDeep(_) => Refusal::Bracket,
        }
    }

    // The place of its token.
    fn place(self) -> usize
        ensures { result ≡ place_in self }
    {
        match self {
            ParseError::Unexpected(i) | ParseError::TooDeep(i) => i,
        }
    }
}

// What a reader answers: the place of the token after what it read, or an error.
pub type Parsed = Result<usize, ParseError>;

// What a text is read as. An enum and no closure: the contract of `read` names it.
#[derive(Clone, Copy)]
pub enum Syntax {
    List,
    Document,
}

// The syntax of these tokens.
fn syntax_of(tokens: &Tokens<'_>, which: Syntax) -> Parsed
    ensures { told tokens.now result ≡ syntax_of which (length tokens.now.text.now) tokens.now.count (from tokens.now 0) }
{
    match which {
        Syntax::List => list_syntax(tokens),
        Syntax::Document => document_syntax(tokens),
    }
}

// Reads a text of at most 16384 bytes: its tokens, written in front of a work area, their terminals behind, and their syntax. Answers how many
// tokens there are, or the first fault; on a fault of the bytes the work area holds anything.
pub fn read(text: &[u8], work: &mut [u32], which: Syntax) -> Result<u32, Fault>
    requires text_len_bound { length text.now ≤ max_text }
    requires work_words_in_bounds { work_words ≤ length work.old }
    ensures value { counted_told result ≡ read_of which text.now }
    ensures recorded { Recorded true (lex text.now) work.old work.new }
    ensures room { Room (counted_told result) (length work.old) }
{
    let n = lex_into(text, &mut *work, true)?;
    let tokens = Tokens {
        text: text,
        table: work,
        count: n as usize,
    };
    match syntax_of(&tokens, which) {
        Ok(_) => Ok(n),
        Err(error) => Err(Fault {
            refusal: error.refusal(),
            at: tokens.place_at(error.place()) as u32,
        }),
    }
}
