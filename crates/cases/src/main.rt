// Runs cases and prints what each answers. A case is a line of standard input: a letter, a blank, and a text. T: the tokens of the text,
// with the words of its table. M: the same, with a line feed for each backslash. L, D: the bytes and the syntax of an operation list, or of
// a document, with the number of tokens. C: `check` of a list and a document, with ` | ` between them. N: `check` of a document that is made
// here, with so many calls.
#![tactic(auto)]

ghost use Rattle.std.specs.Prelude.{◌≡◌, ◌≤◌, IfOk, length};

use input::read_full;
use lexis::Answer;
use lexis::limits::Limits;
use std::io;
use syntax::Syntax;

// The first n words of a table, a blank before each.
fn print_words(rt: &impl Print, table: &[u32], n: usize) -> io::Result<()> {
    for word in table.iter().take(n) {
        print!(rt; " {word}")?;
    }
    Ok(())
}

fn tokens_case(rt: &impl Print, text: &[u8]) -> io::Result<()> {
    // An array on the stack, as all that the cases lend: no heap, fixed memory.
    let mut table = [0u32; Limits::TABLE_WORDS];
    let a = lexis::tokens(text, &mut table);
    print!(rt; "{a}")?;
    if a.code == Answer::ACCEPTED {
        let count = a.detail as usize;
        if count <= Limits::TOKENS {
            print!(rt; " :")?;
            print_words(rt, &table, count * Limits::TOKEN_WORDS)?;
        }
    }
    Ok(())
}

// A line feed for a backslash.
fn broken(b: u8) -> u8 {
    if b == b'\\' {
        return b'\n';
    }
    b
}

// Stores a text with a line feed for each backslash, as far as there is room, and gives its length.
fn put_lines(out: &mut [u8], text: &[u8]) -> usize
    ensures { result ≤ length out.old }
{
    let n = put(&mut *out, 0, text);
    for b in &mut out[..n] {
        *b = broken(*b);
    }
    n
}

// The tokens of a text of several lines.
fn lines_case(rt: &impl Print, text: &[u8]) -> io::Result<()> {
    let mut lines = [0u8; Limits::TEXT];
    let n = put_lines(&mut lines, text);
    tokens_case(rt, &lines[0..n])
}

// The answer of reading a text: how many tokens, or the first fault.
fn syntax_answer(text: &[u8], which: Syntax) -> Answer {
    if !Limits::text_fits(text.len()) {
        return Answer::long_text(1);
    }
    let mut work = [0u32; Limits::WORK_WORDS];
    match syntax::read(text, &mut work, which) {
        Ok(n) => Answer::accepted(n),
        Err(fault) => Answer::refused(fault.refusal, 1, fault.at, 0),
    }
}

fn syntax_case(rt: &impl Print, text: &[u8], which: Syntax) -> io::Result<()> {
    let a = syntax_answer(text, which);
    print!(rt; "{a}")
}

// The answer of `check` for a document under a list.
fn check_case(rt: &impl Print, list: &[u8], document: &[u8]) -> io::Result<()> {
    let mut work1 = [0u32; Limits::WORK_WORDS];
    let mut work2 = [0u32; Limits::WORK_WORDS];
    let mut calls = [0u32; Limits::CALL_WORDS];
    let mut wires = [0u32; Limits::WIRE_WORDS];
    let a = documents::check::check(
        list, document, &mut work1, &mut work2, &mut calls, &mut wires,
    );
    print!(rt; "{a}")
}

// A list before `|`, and a document behind it and one blank.
fn pair_case(rt: &impl Print, text: &[u8]) -> io::Result<()> {
    match text.iter().position(|b| *b == b'|') {
        Some(bar) if bar + 2 <= text.len() => check_case(rt, &text[..bar], &text[bar + 2..]),
        _ => Ok(()),
    }
}

// A number with one digit more; only a digit counts, and no fifth one.
fn with_digit(n: usize, digit: u8) -> usize
    ensures { n ≤ 9999 → result ≤ 9999 }
{
    match digit {
        b'0'..=b'9' if n < 1000 => n * 10 + usize::from(digit - b'0'),
        _ => n,
    }
}

// The number that a text says in digits.
fn number(text: &[u8]) -> usize {
    text.iter().fold(0, |n, digit| with_digit(n, *digit))
}

// Stores bytes from a position on, as far as there is room, and gives the position after them.
fn put(out: &mut [u8], at: usize, bytes: &[u8]) -> usize
    requires { at ≤ length out.old }
    ensures { result ≤ length out.old }
{
    let n = bytes.len().min(out.len() - at);
    out[at..at + n].copy_from_slice(&bytes[..n]);
    at + n
}

// Stores a document of n calls, or of two if n is less, and gives its length.
fn put_calls(out: &mut [u8], n: usize) -> usize
    ensures { result ≤ length out.old }
{
    let mut at = put(
        &mut *out,
        0,
        b"version 1.0 graph g(a)->(b){a=external(shape=[1]);[b]=items(a);",
    );
    for _ in 2..n {
        at = put(&mut *out, at, b"[]=items(a);");
    }
    put(out, at, b"}")
}

// A document of so many calls.
fn calls_case(rt: &impl Print, text: &[u8]) -> io::Result<()> {
    let mut document = [0u8; Limits::TEXT];
    let n = put_calls(&mut document, number(text));
    check_case(
        rt,
        b"fragment external(shape: extent[]) -> (y: tensor) fragment items(x: tensor) -> (ys: tensor[])",
        &document[0..n],
    )
}

// One case: its line, and its answer below.
fn case(rt: &impl Print, line: &[u8]) -> io::Result<()> {
    rt.write_all(line)?;
    println!(rt)?;
    if line.len() < 2 {
        return Ok(());
    }
    let text = &line[2..];
    match line[0] {
        b'T' => tokens_case(rt, text)?,
        b'M' => lines_case(rt, text)?,
        b'L' => syntax_case(rt, text, Syntax::List)?,
        b'D' => syntax_case(rt, text, Syntax::Document)?,
        b'C' => pair_case(rt, text)?,
        b'N' => calls_case(rt, text)?,
        _ => {}
    }
    println!(rt)
}

// Each line of the input. What stands behind the last line feed is a line where it is not empty.
fn cases(rt: &impl Print, s: &[u8]) -> io::Result<()> {
    for line in s.split_inclusive(|b| *b == b'\n') {
        case(rt, line.strip_suffix(b"\n").unwrap_or(line))?;
    }
    Ok(())
}

fn main(rt: HostRuntime) -> io::Result<()> {
    let mut buffer = [0u8; 65536];
    let n = read_full(&mut rt.stdin(), &mut buffer)?;
    cases(&rt, &buffer[..n])
}
