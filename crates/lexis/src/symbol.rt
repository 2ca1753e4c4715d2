// The terminals of the grammar: all that it sees of a token.
ghost use Rattle.std.specs.Prelude.{◌≡◌, cond, ◌-◌, ◌<◌, ◌≤◌, length, take, drop};
ghost use Rattle.spellings.specs.Comparison.{same_bytes};
ghost use Rattle.lexis.specs.Kind.{kind_number};
ghost use Rattle.lexis.specs.Symbol.{other, keyword_symbol, symbol_of};

use crate::kind::Kind;
use crate::token::byte_at;
use spellings::same;

// A syntactic character is numbered by its first byte, any other terminal by a number that is no byte. Numbers and no enum: they lie as words
// in the lent work area, and are read back from it word for word.
#[derive(Clone, Copy)]
pub struct Symbol {}

impl Symbol {
    // What the flat syntax has no place for.
    pub const OTHER: u32 = 0;

    pub const LEFT_ROUND: u32 = 40;

    pub const RIGHT_ROUND: u32 = 41;

    pub const LEFT_SQUARE: u32 = 91;

    pub const RIGHT_SQUARE: u32 = 93;

    pub const LEFT_CURLY: u32 = 123;

    pub const RIGHT_CURLY: u32 = 125;

    pub const COLON: u32 = 58;

    pub const EQUAL: u32 = 61;

    pub const COMMA: u32 = 44;

    pub const SEMICOLON: u32 = 59;

    pub const ARROW: u32 = 45;

    pub const NAME: u32 = 256;

    pub const NUMBER: u32 = 257;

    pub const LITERAL: u32 = 258;

    pub const VERSION: u32 = 259;

    pub const GRAPH: u32 = 260;

    pub const FRAGMENT: u32 = 261;

    pub const TENSOR: u32 = 262;

    pub const EXTENT: u32 = 263;

    pub const SCALAR: u32 = 264;

    pub const LOGICAL: u32 = 265;

    pub const STRING: u32 = 266;

    // The sign of a number.
    pub const MINUS: u32 = 267;

    // No token: the end.
    pub const END: u32 = 268;
}

// The terminal s where w is spelt so; else none of the flat syntax. Beside `kind_if`, which see.
fn symbol_if(w: &[u8], spelling: &[u8], s: u32) -> u32
    ensures { result ≡ cond (same_bytes w.now spelling.now) s other }
{
    if same(w, spelling) {
        return s;
    }
    Symbol::OTHER
}

// The terminal of a keyword, by its spelling. Its first byte leaves one or two words to compare it with.
fn keyword(w: &[u8]) -> u32
    ensures { result ≡ keyword_symbol w.now }
{
    match byte_at(w, 0) {
        b't' => symbol_if(w, b"tensor", Symbol::TENSOR),
        b'e' => symbol_if(w, b"extent", Symbol::EXTENT),
        b's' => {
            if same(w, b"scalar") {
                return Symbol::SCALAR;
            }
            symbol_if(w, b"string", Symbol::STRING)
        }
        b'l' => symbol_if(w, b"logical", Symbol::LOGICAL),
        b'f' => symbol_if(w, b"fragment", Symbol::FRAGMENT),
        b'g' => symbol_if(w, b"graph", Symbol::GRAPH),
        b'v' => symbol_if(w, b"version", Symbol::VERSION),
        _ => Symbol::OTHER,
    }
}

// The terminal of a token of this kind that stands from `start` to `end`.
#[tactic(auto, unfolding(crate::specs::Symbol::symbol_of))]
pub fn symbol_of(text: &[u8], kind: Kind, start: usize, end: usize) -> u32
    requires start_lt_end { start < end }
    requires end_in_bounds { end ≤ length text.now }
    ensures { result ≡ symbol_of (kind_number kind) (take (end - start) (drop start text.now)) }
{
    match kind {
        Kind::Name => Symbol::NAME,
        Kind::Whole | Kind::Real => Symbol::NUMBER,
        Kind::String | Kind::Truth => Symbol::LITERAL,
        Kind::Keyword => keyword(&text[start..end]),
        Kind::Operator => symbol_if(&text[start..end], b"-", Symbol::MINUS),
        Kind::Syntactic => u32::from(text[start]),
    }
}
