// The token cursor.
ghost use Rattle.std.specs.Prelude.{◌≡◌, true, ◌<◌, length, drop, get_or};
ghost use Rattle.lexis.specs.Bytes.{class_of};
ghost use Rattle.lexis.specs.Class.{class_number};
ghost use Rattle.lexis.specs.Lexeme.{lexeme};
ghost use Rattle.lexis.specs.Steps.{a_mark, plainly, step_at};

use crate::class::{Class, class_of};
use crate::kind::Kind;
use crate::limits::Limits;
use crate::refusal::Refusal;
use crate::span::{comment_end, space_end};
use crate::token::{byte_at, token_at};

// A token record: kind, start, end after the last byte.
#[derive(Clone, Copy)]
pub struct Record {
    pub kind: Kind,
    pub start: usize,
    pub end: usize,
}

// A place in a text, and how many tokens were read before it.
#[derive(Clone, Copy)]
pub struct Cursor {
    pub at: usize,
    pub count: usize,
}

// What a cursor finds: a token, a syntactic character of one byte or a part of a gap, and the next cursor; the end of the text; or a
// fault. No `Result` around the other four: the lexer takes all five apart in one `match`.
#[derive(Clone, Copy)]
pub enum Step {
    Next(Record, Cursor),
    Mark(Cursor),
    Gap(Cursor),
    End,
    Fault { refusal: Refusal, at: usize },
}

// Whether a syntactic character of one byte stands at `at`, a byte of this class: any but the first = of two. They are the most frequent
// tokens.
fn is_mark(text: &[u8], at: usize, class: Class) -> bool
    requires at_in_bounds { at < length text.now }
    requires class_value { class_number class ≡ class_of (get_or text.now at 0) }
    ensures { result ≡ true → a_mark ≡ lexeme (drop at text.now) }
{
    match class {
        Class::Syntactic => text[at] != b'=' || byte_at(text, at + 1) != b'=',
        _ => false,
    }
}

impl Cursor {
    // The start of a text.
    pub fn new() -> Self
        ensures { result ≡ record { at = 0; count = 0 } }
    {
        Cursor { at: 0, count: 0 }
    }

    // What stands at the cursor, with the next cursor.
    pub fn next(self, text: &[u8]) -> Step
        ensures { plainly self result ≡ step_at text.now self }
    {
        let count = self.count;
        let at = self.at;
        if text.len() <= at {
            return Step::End;
        }
        let class = class_of(text[at]);
        match class {
            Class::Space => {
                let end = space_end(text, at + 1);
                return Step::Gap(Cursor { at: end, count });
            }
            Class::Comment => {
                let end = comment_end(text, at + 1);
                return Step::Gap(Cursor { at: end, count });
            }
            _ => {}
        }
        if is_mark(text, at, class) {
            if !Limits::token_fits(count) {
                return Step::Fault {
                    refusal: Refusal::TooManyTokens,
                    at,
                };
            }
            return Step::Mark(Cursor {
                at: at + 1,
                count: count + 1,
            });
        }
        let found = match token_at(text, at, class) {
            Ok(found) => found,
            Err(refusal) => return Step::Fault { refusal, at },
        };
        if !Limits::token_fits(count) {
            return Step::Fault {
                refusal: Refusal::TooManyTokens,
                at,
            };
        }
        let end = at + found.len;
        Step::Next(
            Record {
                kind: found.kind,
                start: at,
                end,
            },
            Cursor {
                at: end,
                count: count + 1,
            },
        )
    }
}
