// The shape of a number, and its reduced value.
ghost use Rattle.std.specs.Prelude.{◌≡◌, ◌+◌, ◌<◌, ◌≤◌, length, drop, get_or};
ghost use Rattle.lexis.specs.Sizes.{max_number};
ghost use Rattle.lexis.specs.Shapes.{shape_of};
ghost use Rattle.lexis.specs.Number.{frac_len, sign_len, is_e, exp_len, parts_of, sticks};
ghost use Rattle.lexis.specs.Number.{reduction};
ghost use Rattle.lexis.specs.Lexeme.{lexeme_told, number_lexeme};

use crate::class::{Class, class_of};
use crate::kind::Kind;
use crate::limits::Limits;
use crate::numeral::Numeral;
use crate::refusal::Refusal;
use crate::span::digits_end;
use crate::token::{Lexeme, byte_at};

// The three parts of a number: whole digits, point and fraction, exponent; each a count of bytes.
#[derive(Clone, Copy)]
pub struct Parts {
    pub whole: usize,
    pub frac: usize,
    pub exp: usize,
}

// How many bytes at `at` are a point and digits.
fn frac_len(text: &[u8], at: usize) -> usize
    requires { at ≤ length text.now }
    ensures { result ≡ frac_len (drop at text.now) }
{
    if byte_at(text, at) != b'.' {
        return 0;
    }
    let from = at + 1;
    let end = digits_end(text, from);
    if end == from {
        return 0;
    }
    end - at
}

// How many bytes at `at` are a sign: one or none.
#[tactic(auto, unfolding(crate::specs::Number::sign_len))]
pub(crate) fn sign_len(text: &[u8], at: usize) -> usize
    ensures { result ≡ sign_len (drop at text.now) }
{
    usize::from(matches!(byte_at(text, at), b'+' | b'-'))
}

// The letter of an exponent.
#[tactic(auto, unfolding(crate::specs::Number::is_e))]
fn is_e(b: u8) -> bool
    ensures { result ≡ is_e b }
{
    matches!(b, b'e' | b'E')
}

// How many bytes at `at` are e or E, a sign or none, and digits.
fn exp_len(text: &[u8], at: usize) -> usize
    requires { at ≤ length text.now }
    ensures { result ≡ exp_len (drop at text.now) }
{
    let b = byte_at(text, at);
    if !is_e(b) {
        return 0;
    }
    let sign = sign_len(text, at + 1);
    let from = at + (1 + sign);
    let end = digits_end(text, from);
    if end == from {
        return 0;
    }
    end - at
}

// A byte that may not follow a number.
#[tactic(auto, unfolding(crate::specs::Number::sticks))]
fn sticks_to(b: u8) -> bool
    ensures { result ≡ sticks b }
{
    class_of(b) == Class::Letter || b == b'.'
}

// A reduced number: the mantissa times ten to the exponent.
#[derive(Clone, Copy)]
pub struct Number {
    pub mantissa: u64,
    pub exponent: i32,
}

// The parts of the longest number at the front of w.
fn parts_of(w: &[u8]) -> Parts
    ensures { result ≡ parts_of w.now }
{
    let whole = digits_end(w, 0);
    let frac = frac_len(w, whole);
    let exp = exp_len(w, whole + frac);
    Parts { whole, frac, exp }
}

// What the number at the front of w reduces to; none where it is out of range.
pub fn reduce(w: &[u8]) -> Option<Number>
    requires { length w.now ≤ max_number }
    ensures { result ≡ reduction w.now }
{
    let numeral = Numeral {
        bytes: w,
        parts: parts_of(w),
    };
    numeral.reduction()
}

// Whether a byte that may not follow a number stands at `at`.
fn sticks_at(text: &[u8], at: usize) -> bool
    ensures { result ≡ sticks (get_or text.now at 0) }
{
    if text.len() <= at {
        return false;
    }
    sticks_to(text[at])
}

// The parts of the longest number at `at`; none where a letter or a point sticks to it. A byte that does not stick ends it, so most numbers are told by one byte after their digits.
fn shape_at(text: &[u8], at: usize) -> Option<Parts>
    requires { at ≤ length text.now }
    ensures { result ≡ shape_of (drop at text.now) }
{
    let end = digits_end(text, at);
    let whole = end - at;
    if !sticks_at(text, end) {
        return Some(Parts {
            whole,
            frac: 0,
            exp: 0,
        });
    }
    let frac = frac_len(text, end);
    let mid = end + frac;
    if !sticks_at(text, mid) {
        return Some(Parts {
            whole,
            frac,
            exp: 0,
        });
    }
    let exp = exp_len(text, mid);
    if sticks_at(text, mid + exp) {
        return None;
    }
    Some(Parts { whole, frac, exp })
}

// A number at `at`.
pub(crate) fn number_at(text: &[u8], at: usize) -> Result<Lexeme, Refusal>
    requires { at < length text.now }
    ensures { lexeme_told result ≡ number_lexeme (drop at text.now) }
{
    let Some(p) = shape_at(text, at) else {
        return Err(Refusal::Misspelt);
    };
    let len = p.whole + p.frac + p.exp;
    if !Limits::number_fits(len) {
        return Err(Refusal::TooLong);
    }
    let numeral = Numeral {
        bytes: &text[at..at + len],
        parts: p,
    };
    if !numeral.in_range() {
        return Err(Refusal::OutOfRange);
    }
    let kind = if len == p.whole {
        Kind::Whole
    } else {
        Kind::Real
    };
    Ok(Lexeme { kind, len })
}
