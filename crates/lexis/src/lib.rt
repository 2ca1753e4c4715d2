// The lexer: the bytes of a text into a table of token records.
#![tactic(auto)]

pub mod class;
mod cursor;
mod exponent;
pub mod kind;
mod lent;
pub mod limits;
mod mantissa;
pub mod number;
mod numeral;
pub mod refusal;
mod span;
pub mod symbol;
mod token;
pub mod word;

ghost use Rattle.std.specs.Prelude.{◌≡◌, true, false, ◌+◌, ◌-◌, ◌*◌, ◌<◌, ◌≤◌, min, length, take, drop};
ghost use Rattle.lexis.specs.Answer.{answer, tokens_answer, tokens_table, counted_told, counted, answer_of, recorded};
ghost use Rattle.lexis.specs.Code as Code;
ghost use Rattle.lexis.specs.Kind.{kind_number};
ghost use Rattle.lexis.specs.Lexer.{lex};
ghost use Rattle.lexis.specs.Refusal.{refusal_number};
ghost use Rattle.lexis.specs.Sizes.{max_text, max_tokens, record_words, table_words, first_mark};
ghost use Rattle.lexis.specs.Symbol.{symbol_of};
ghost use Rattle.lexis.specs.Work.{Recorded, Room, Found, area_words, record_at, marked_at};

use cursor::{Cursor, Record, Step};
use kind::Kind;
use lent::{fill, put_words};
use limits::Limits;
use refusal::{Fault, Refusal};
use std::fmt;
use symbol::symbol_of;

// The four numbers of an answer, as C has them.
#[repr(C)]
#[derive(Clone, Copy)]
pub struct Answer {
    pub code: u32,
    pub text: u32,
    pub position: u32,
    pub detail: u32,
}

impl Answer {
    // The code of acceptance, which is no refusal.
    pub const ACCEPTED: u32 = 0;

    // Acceptance, which names no text.
    #[inline]
    pub fn accepted(detail: u32) -> Answer
        ensures { result ≡ answer Code.accepted 0 0 detail }
    {
        Answer {
            code: Answer::ACCEPTED,
            text: 0,
            position: 0,
            detail,
        }
    }

    // The refusal of a text; text 0 is none.
    #[inline]
    pub fn refused(refusal: Refusal, text: u32, position: u32, detail: u32) -> Answer
        ensures { result ≡ answer (refusal_number refusal) text position detail }
    {
        Answer {
            code: refusal.number(),
            text,
            position,
            detail,
        }
    }

    // What is lent is too short.
    #[inline]
    pub fn short_room() -> Answer
        ensures { result ≡ answer Code.short_room 0 0 0 }
    {
        Answer::refused(Refusal::ShortRoom, 0, 0, 0)
    }

    // This text is too long.
    #[inline]
    pub fn long_text(text: u32) -> Answer
        ensures { result ≡ answer Code.long_text text max_text 0 }
    {
        Answer::refused(Refusal::LongText, text, Limits::TEXT as u32, 0)
    }
}

// The four numbers, one blank between.
impl fmt::Display for Answer {
    fn fmt<W: fmt::Write>(&self, f: &mut fmt::Formatter<W>) -> fmt::Result {
        write!(
            f,
            "{} {} {} {}",
            self.code, self.text, self.position, self.detail
        )
    }
}

// The bytes of a text that takes a small work area, which is cleared in less time, and the words of that area.
const LINE: usize = 32;

const LINE_WORDS: usize = LINE * Limits::RECORD_WORDS;

const TINY: usize = 128;

const TINY_WORDS: usize = TINY * Limits::RECORD_WORDS;

const SHORT: usize = 512;

const SHORT_WORDS: usize = SHORT * Limits::RECORD_WORDS;

const MIDDLE: usize = 2048;

const MIDDLE_WORDS: usize = MIDDLE * Limits::RECORD_WORDS;

// The operation: the tokens of a text into a lent table. The work is done in a work area of its own, so that a refusal writes nothing.
pub fn tokens(text: &[u8], table: &mut [u32]) -> Answer
    ensures value { result ≡ tokens_answer text.now table.old }
    ensures table_after { table.new ≡ tokens_table text.now table.old }
{
    if !Limits::table_serves(table.len()) {
        return Answer::short_room();
    }
    if !Limits::text_fits(text.len()) {
        return Answer::long_text(1);
    }
    tokens_within(text, table)
}

// The records of a text of at most 16384 bytes, written in front of a work area as they are found, and where it is to be `marked` the
// terminals of the tokens behind them. On a fault the work area holds anything, and is as long as before. A flag: two
// functions with a loop each run at half the speed (measured).
pub fn lex_into(text: &[u8], work: &mut [u32], marked: bool) -> Result<u32, Fault>
    requires text_len_bound { length text.now ≤ max_text }
    requires text_in_bounds { area_words marked (length text.now) ≤ length work.old }
    ensures value { counted_told result ≡ counted (lex text.now) }
    ensures recorded { Recorded marked (lex text.now) work.old work.new }
    ensures room { Room (counted_told result) (length work.old) }
{
    // No `for`: the cursor says where the text ends.
    let mut c = Cursor::new();
    loop {
        match c.next(text) {
            Step::Next(r, d) => {
                put_record(&mut *work, c.count, r);
                mark(text, r, &mut *work, c.count, marked);
                c = d;
            }
            Step::Mark(d) => {
                let at = c.at;
                let r = Record {
                    kind: Kind::Syntactic,
                    start: at,
                    end: d.at,
                };
                put_record(&mut *work, c.count, r);
                put_mark(&mut *work, c.count, u32::from(text[at]), marked);
                c = d;
            }
            Step::Gap(d) => {
                c = d;
            }
            Step::End => {
                return Ok(c.count as u32);
            }
            Step::Fault { refusal, at } => {
                return Err(Fault {
                    refusal,
                    at: at as u32,
                });
            }
        }
    }
}

// The record of the token at place `i`.
fn put_record(work: &mut [u32], i: usize, r: Record)
    requires record_words_in_bounds { i * record_words + 2 < length work.old }
    requires start_le_max_text { (r.start ≤ max_text) × (r.end ≤ max_text) }
    ensures { work.new ≡ record_at work.old (i * record_words) (kind_number r.kind) r.start r.end }
{
    put_words(
        work,
        i * Limits::RECORD_WORDS,
        r.kind as u32,
        r.start as u32,
        r.end as u32,
    );
}

// The terminal s of the token at place `i` behind the records, where the work area is to be marked.
fn put_mark(work: &mut [u32], i: usize, s: u32, marked: bool)
    requires { marked ≡ true → first_mark + i < length work.old }
    ensures { work.new ≡ marked_at marked work.old i s }
{
    if !marked {
        return;
    }
    work[Limits::MARKS + i] = s;
}

// The terminal of the token at place `i` behind the records, where the work area is to be marked.
fn mark(text: &[u8], r: Record, work: &mut [u32], i: usize, marked: bool)
    requires start_lt_end { r.start < r.end }
    requires end_in_bounds { r.end ≤ length text.now }
    requires i_in_bounds { marked ≡ true → first_mark + i < length work.old }
    ensures { work.new ≡ marked_at marked work.old i
        (symbol_of (kind_number r.kind) (take (r.end - r.start) (drop r.start text.now))) }
{
    if !marked {
        return;
    }
    work[Limits::MARKS + i] = symbol_of(text, r.kind, r.start, r.end);
}

// The answer of a text within its limit: a work area is cleared when it is made, so a short text gets a short one.
fn tokens_within(text: &[u8], table: &mut [u32]) -> Answer
    requires text_len_bound { length text.now ≤ max_text }
    requires table_words_in_bounds { table_words ≤ length table.old }
    ensures value { result ≡ answer_of (counted (lex text.now)) }
    ensures table_after { table.new ≡ recorded text.now table.old (lex text.now) }
{
    if text.len() <= LINE {
        return tokens_in::<LINE_WORDS>(text, table);
    }
    if text.len() <= TINY {
        return tokens_in::<TINY_WORDS>(text, table);
    }
    if text.len() <= SHORT {
        return tokens_in::<SHORT_WORDS>(text, table);
    }
    if text.len() <= MIDDLE {
        return tokens_in::<MIDDLE_WORDS>(text, table);
    }
    tokens_in::<{ Limits::MARKS }>(text, table)
}

// The same in a work area of so many words.
fn tokens_in<const WORDS: usize>(text: &[u8], table: &mut [u32]) -> Answer
    requires text_len_bound { length text.now ≤ max_text }
    requires room { (record_words * min (length text.now) max_tokens ≤ WORDS) × (WORDS ≤ first_mark) }
    requires table_words_in_bounds { table_words ≤ length table.old }
    ensures value { result ≡ answer_of (counted (lex text.now)) }
    ensures table_after { table.new ≡ recorded text.now table.old (lex text.now) }
{
    // An array on the stack: no heap, fixed memory.
    let mut work = [0u32; WORDS];
    let found = lexed(text, &mut work);
    listed(text, found, &work, table)
}

// What the lexer finds, with the records alone in a work area.
fn lexed(text: &[u8], work: &mut [u32]) -> Result<u32, Fault>
    requires text_len_bound { length text.now ≤ max_text }
    requires max_tokens_in_bounds { record_words * min (length text.now) max_tokens ≤ length work.old }
    ensures { Found (lex text.now) (counted_told result) work.new }
{
    lex_into(text, work, false)
}

// The answer to what the lexer found, and the records with their lines in the table where there is no fault.
fn listed(text: &[u8], found: Result<u32, Fault>, work: &[u32], table: &mut [u32]) -> Answer
    requires text_len_bound { length text.now ≤ max_text }
    requires found { Found (lex text.now) (counted_told found) work.now }
    requires table_words_in_bounds { table_words ≤ length table.old }
    ensures value { result ≡ answer_of (counted (lex text.now)) }
    ensures table_after { table.new ≡ recorded text.now table.old (lex text.now) }
{
    match found {
        Ok(n) => {
            fill(text, work, table, n as usize);
            Answer::accepted(n)
        }
        Err(fault) => Answer::refused(fault.refusal, 1, fault.at, 0),
    }
}
