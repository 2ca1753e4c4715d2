// Runs of bytes in a text. Each function gives the position after the run that starts at `from`.
ghost use Rattle.std.specs.Prelude.{◌≡◌, ℕ, Bool, ◌+◌, ◌≤◌, length, drop};
ghost use Rattle.lexis.specs.Bytes.{is_digit, is_name_part, is_content, span_len};
ghost use Rattle.lexis.specs.Runs.{is_space, in_comment, Answers};

use crate::class::{Class, class_of};

// The end of a run of bytes that belong to it. A while loop: measured, with `for` the numbers of a text take a fourteenth more.
fn run_end<F: Fn(u8) -> bool>(text: &[u8], from: usize, belongs: F) -> usize
    requires { F.IsAlwaysCallable belongs }
    ensures { (test : ℕ → Bool) → Answers (F.post belongs) test → result ≡ from + span_len test (drop from text.now) }
{
    let mut i = from;
    while i < text.len() {
        if !belongs(text[i]) {
            return i;
        }
        i += 1;
    }
    i
}

// The end of a run that is often long, four bytes at a turn: `run_end` with a quarter of its tests of the text's end. No `for`: any of the four may end
// the run, and how many bytes are left is tested once for all of them.
fn long_run_end<F: Fn(u8) -> bool>(text: &[u8], from: usize, belongs: F) -> usize
    requires callable { F.IsAlwaysCallable belongs }
    requires from_in_bounds { from ≤ length text.now }
    ensures { (test : ℕ → Bool) → Answers (F.post belongs) test → result ≡ from + span_len test (drop from text.now) }
{
    let mut i = from;
    while 4 <= text.len() - i {
        if !belongs(text[i]) {
            return i;
        }
        let second = i + 1;
        if !belongs(text[second]) {
            return second;
        }
        let third = i + 2;
        if !belongs(text[third]) {
            return third;
        }
        let fourth = i + 3;
        if !belongs(text[fourth]) {
            return fourth;
        }
        i += 4;
    }
    run_end(text, i, belongs)
}

// A function for each kind of run: what its closure promises is of these bytes alone.

// Digits.
pub fn digits_end(text: &[u8], from: usize) -> usize
    ensures { result ≡ from + span_len is_digit (drop from text.now) }
{
    let digit = |b: u8| -> bool
        ensures { result ≡ is_digit b }
    { class_of(b) == Class::Digit };
    run_end(text, from, digit)
}

// Letters, underscores and digits.
pub fn name_end(text: &[u8], from: usize) -> usize
    requires { from ≤ length text.now }
    ensures { result ≡ from + span_len is_name_part (drop from text.now) }
{
    let part = |b: u8| -> bool
        ensures { result ≡ is_name_part b }
    { matches!(class_of(b), Class::Letter | Class::Digit) };
    long_run_end(text, from, part)
}

// What a string holds between quotes of this byte.
pub fn content_end(text: &[u8], from: usize, quote: u8) -> usize
    requires { from ≤ length text.now }
    ensures { result ≡ from + span_len (is_content quote) (drop from text.now) }
{
    let content = |b: u8| -> bool
        ensures { result ≡ is_content quote b }
    { 32 <= b && b <= 126 && b != quote };
    long_run_end(text, from, content)
}

// White space.
pub fn space_end(text: &[u8], from: usize) -> usize
    ensures { result ≡ from + span_len is_space (drop from text.now) }
{
    let space = |b: u8| -> bool
        ensures { result ≡ is_space b }
    { class_of(b) == Class::Space };
    run_end(text, from, space)
}

// What a comment holds after its sign.
pub fn comment_end(text: &[u8], from: usize) -> usize
    requires { from ≤ length text.now }
    ensures { result ≡ from + span_len in_comment (drop from text.now) }
{
    let held = |b: u8| -> bool
        ensures { result ≡ in_comment b }
    { b != b'\n' };
    long_run_end(text, from, held)
}
