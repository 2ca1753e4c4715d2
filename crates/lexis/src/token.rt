// The token at a position of a text.
ghost use Rattle.std.specs.Prelude.{◌≡◌, ◌+◌, ◌<◌, ◌≤◌, length, drop, get_or};
ghost use Rattle.lexis.specs.Bytes.{class_of};
ghost use Rattle.lexis.specs.Class.{class_number};
ghost use Rattle.lexis.specs.Lexeme.{lexeme_told, word_lexeme, string_lexeme, takes_equal, mark_lexeme, lexeme};

use crate::class::Class;
use crate::kind::Kind;
use crate::limits::Limits;
use crate::number::number_at;
use crate::refusal::Refusal;
use crate::span::{content_end, name_end};
use crate::word::kind_of_word;

// A token at the front of a text.
#[derive(Clone, Copy)]
pub struct Lexeme {
    pub kind: Kind,
    pub len: usize,
}

// The byte at i, and 0 past the end, which begins and ends no token: what is asked of it is the same there.
pub fn byte_at(text: &[u8], i: usize) -> u8
    ensures { result ≡ get_or text.now i 0 }
{
    if i < text.len() {
        return text[i];
    }
    0
}

// A name, a keyword, true or false.
fn word_at(text: &[u8], at: usize) -> Result<Lexeme, Refusal>
    requires { at < length text.now }
    ensures { lexeme_told result ≡ word_lexeme (drop at text.now) }
{
    let end = name_end(text, at);
    let len = end - at;
    if !Limits::name_fits(len) {
        return Err(Refusal::TooLong);
    }
    let kind = kind_of_word(&text[at..end]);
    Ok(Lexeme { kind, len })
}

// A string whose opening quote stands at `at`.
fn string_at(text: &[u8], at: usize) -> Result<Lexeme, Refusal>
    requires { at < length text.now }
    ensures { lexeme_told result ≡ string_lexeme (get_or text.now at 0) (drop (at + 1) text.now) }
{
    let q = text[at];
    let from = at + 1;
    let end = content_end(text, from, q);
    if byte_at(text, end) != q {
        return Err(Refusal::BadString);
    }
    let n = end - from;
    if !Limits::string_fits(n) {
        return Err(Refusal::TooLong);
    }
    Ok(Lexeme {
        kind: Kind::String,
        len: n + 2,
    })
}

// A byte that = may follow.
#[tactic(auto, unfolding(crate::specs::Lexeme::takes_equal))]
fn takes_equal(a: u8) -> bool
    ensures { result ≡ takes_equal a }
{
    matches!(a, b'<' | b'>' | b'=' | b'!')
}

// An operator or a syntactic character: a is its first byte, of this class, b the next, 0 where there is none. A byte and no `Option`: b is only compared
// with bytes that are not 0.
fn mark_of(class: Class, a: u8, b: u8) -> Result<Lexeme, Refusal>
    requires { class_number class ≡ class_of a }
    ensures { lexeme_told result ≡ mark_lexeme a b }
{
    match class {
        Class::Syntactic => {
            if a == b'=' && b == b'=' {
                Ok(Lexeme {
                    kind: Kind::Operator,
                    len: 2,
                })
            } else {
                Ok(Lexeme {
                    kind: Kind::Syntactic,
                    len: 1,
                })
            }
        }
        Class::Operator => {
            if b == b'=' && takes_equal(a) {
                Ok(Lexeme {
                    kind: Kind::Operator,
                    len: 2,
                })
            } else if a == b'-' && b == b'>' {
                Ok(Lexeme {
                    kind: Kind::Syntactic,
                    len: 2,
                })
            } else {
                Ok(Lexeme {
                    kind: Kind::Operator,
                    len: 1,
                })
            }
        }
        Class::Twice => {
            if a == b {
                Ok(Lexeme {
                    kind: Kind::Operator,
                    len: 2,
                })
            } else {
                Err(Refusal::NoToken)
            }
        }
        _ => Err(Refusal::NoToken),
    }
}

// What stands at `at`, a byte of this class, where no gap does.
pub fn token_at(text: &[u8], at: usize, class: Class) -> Result<Lexeme, Refusal>
    requires at_in_bounds { at < length text.now }
    requires class_value { class_number class ≡ class_of (get_or text.now at 0) }
    ensures { lexeme_told result ≡ lexeme (drop at text.now) }
{
    match class {
        Class::Letter => word_at(text, at),
        Class::Digit => number_at(text, at),
        Class::Quote => string_at(text, at),
        _ => mark_of(class, text[at], byte_at(text, at + 1)),
    }
}
