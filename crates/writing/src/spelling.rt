// The canonical spelling of numbers, strings and truth values.
ghost use Rattle.std.specs.Prelude.{ℕ, ◌≡◌, true, ◌-◌, ◌<◌, ◌≤◌, eqb, length, get_or, take, drop};
ghost use Rattle.lexis.specs.Ascii.{byte};
ghost use Rattle.lexis.specs.Sizes.{max_number};
ghost use Rattle.lexis.specs.Number.{value_from, parts_of, is_near, in_range, signed};
ghost use Rattle.lists.specs.Reading.{v_number, v_extent, content_of, number_of};
ghost use Rattle.writing.specs.Spelling.{decimal, spell_exponent, spell_number, quote_for, spell_string, spell_truth};
ghost use Rattle.writing.specs.Layout.{pieces};
ghost use Rattle.writing.specs.Writing.{Wrote, Puts, PutsWord, sign_if, Unpadded, AreDigits};

use crate::writer::Writer;
use lexis::number::reduce;

// The most digits that a number of 64 bits has.
const DIGITS: usize = 20;

// Stores the digits of n at the end of a buffer of 20 bytes, and gives the place of the first.
fn fill(buffer: &mut [u8], n: u64) -> usize
    requires { length buffer.old ≡ 20 }
    ensures range { result < 20 }
    ensures digits { take (20 - result) (drop result buffer.new) ≡ decimal n }
{
    // No `for`: how many digits there are is known when none is left.
    let mut rest = n;
    let mut i = DIGITS - 1;
    while 10 <= rest {
        buffer[i] = b'0' + (rest % 10) as u8;
        rest = rest / 10;
        i -= 1;
    }
    buffer[i] = b'0' + rest as u8;
    i
}

// The bytes of the digits of n.
pub fn put_digits(out: &mut Writer<'_>, n: u64)
    ensures { Wrote (decimal n) out.old out.new }
{
    if n < 10 {
        return out.put_byte(b'0' + n as u8);
    }
    // An array on the stack: no heap, fixed memory.
    let mut buffer = [0u8; DIGITS];
    let from = fill(&mut buffer, n);
    out.put_bytes(&buffer[from..DIGITS]);
}

// The bytes of an exponent.
fn put_exponent(out: &mut Writer<'_>, e: i32)
    requires { is_near e ≡ true }
    ensures { Wrote (spell_exponent e) out.old out.new }
{
    if e < 0 {
        out.put_byte(b'-');
        return put_digits(out, (-e) as u64);
    }
    put_digits(out, e as u64);
}

// Puts a reduced number: mantissa, `e`, exponent.
fn put_reduced(out: &mut Writer<'_>, mantissa: u64, exponent: i32)
    requires { is_near exponent ≡ true }
    ensures { PutsWord (spell_number (record { mantissa = mantissa; exponent = exponent })) out.old out.new }
{
    put_digits(out, mantissa);
    out.put_byte(b'e');
    put_exponent(out, exponent);
    out.end_token();
}

// Puts the sign of a number, where it has one and is not zero.
fn put_sign(out: &mut Writer<'_>, negative: bool, zero: bool)
    ensures { Puts (sign_if negative zero) out.old out.new }
{
    if negative && !zero {
        out.put_mark(b'-');
    }
}

// Puts a reduced number after its sign.
fn put_signed(out: &mut Writer<'_>, mantissa: u64, exponent: i32, negative: bool)
    requires { is_near exponent ≡ true }
    ensures { Puts (pieces (v_number (record { mantissa = signed negative mantissa; exponent = exponent }))) out.old out.new }
{
    put_sign(out, negative, mantissa == 0);
    put_reduced(out, mantissa, exponent);
}

// Puts a number, whole or real, that is spelt so and in range, as every number is that the lexer has passed.
pub fn put_number(out: &mut Writer<'_>, word: &[u8], negative: bool)
    requires word_len_bound { length word.now ≤ max_number }
    ensures { in_range word.now (parts_of word.now) ≡ true
        → Puts (pieces (number_of negative word.now)) out.old out.new }
{
    if let Some(number) = reduce(word) {
        put_signed(out, number.mantissa, number.exponent, negative);
    }
}

// How many zeros lead digits.
fn leading(w: &[u8]) -> usize
    ensures within { result ≤ length w.now }
    ensures zeros { (k : ℕ) → k < result → get_or w.now k 0 ≡ byte "0" }
    ensures ended { result < length w.now → get_or w.now result 0 ≡ byte "0" → ⊥ }
{
    w.iter().position(|d| *d != b'0').unwrap_or(w.len())
}

// The same, the last digit not counted.
fn zeros(w: &[u8]) -> usize
    ensures { Unpadded w.now result }
{
    leading(w).min(w.len().saturating_sub(1))
}

// Whether a zero stands at place i.
fn is_zero(w: &[u8], i: usize) -> bool
    ensures { result ≡ eqb (get_or w.now i 0) (byte "0") }
{
    i < w.len() && w[i] == b'0'
}

// Puts a whole number at extent: its sign, and its digits without leading zeros.
pub fn put_extent(out: &mut Writer<'_>, word: &[u8], negative: bool)
    ensures { AreDigits word.now
        → Puts (pieces (v_extent (signed negative (value_from 0 word.now)))) out.old out.new }
{
    let from = zeros(word);
    put_sign(out, negative, is_zero(word, from));
    out.put_word(&word[from..word.len()]);
}

// The quote for a string of this content.
fn quote_for(content: &[u8]) -> u8
    ensures { result ≡ quote_for content.now }
{
    if content.contains(&b'\'') {
        b'"'
    } else {
        b'\''
    }
}

// Puts a string of this content.
fn put_quoted(out: &mut Writer<'_>, content: &[u8])
    ensures { PutsWord (spell_string content.now) out.old out.new }
{
    let quote = quote_for(content);
    out.put_byte(quote);
    out.put_bytes(content);
    out.put_byte(quote);
    out.end_token();
}

// Puts a string that is spelt so, quotes and all.
pub fn put_string(out: &mut Writer<'_>, word: &[u8])
    ensures { PutsWord (spell_string (content_of word.now)) out.old out.new }
{
    if word.len() < 2 {
        return put_quoted(out, b"");
    }
    put_quoted(out, &word[1..word.len() - 1]);
}

// Puts a truth value that is spelt so: `true` has four bytes, `false` five.
pub fn put_truth(out: &mut Writer<'_>, word: &[u8])
    ensures { PutsWord (spell_truth (eqb (length word.now) 4)) out.old out.new }
{
    if word.len() == 4 {
        return out.put_word(b"true");
    }
    out.put_word(b"false");
}
