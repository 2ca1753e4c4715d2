// The program: reads the operation list in the file `declarations.nnef` and a document from standard input, and writes the canonical
// text of the document, or the four numbers of its refusal. A read or a write that fails is said on standard error.
#![tactic(auto)]

ghost use Rattle.std.specs.Prelude.{◌≤◌, IfOk, length};

use canonical::program::show;
use input::read_full;
use lexis::limits::Limits;
use std::fmt::Write as _;
use std::fs::File;
use std::io::Write;
use std::{fmt, io};

// A text of at most 16,384 bytes, and one byte more, so that a longer one is told apart.
const ROOM: usize = Limits::TEXT + 1;

// As many bytes as the words of an error may have.
const WORDS: usize = 256;

// The words of an error.
#[derive(Drop)]
struct Words {
    bytes: [u8; WORDS],
    len: usize,
    ghost within: { len ≤ 256 },
}

impl fmt::Write for Words {
    // Adds a text, as far as there is room.
    fn write_str(&mut self, text: &str) -> fmt::Result {
        let room = &mut self.bytes[self.len..];
        let n = text.len().min(room.len());
        room[..n].copy_from_slice(&text.as_bytes()[..n]);
        self.len += n;
        Ok(())
    }
}

// What begins the number of an error.
const OS_ERROR: &[u8] = b" (os error ";

// Where the number of an error stands behind its words, or the end.
fn words_end(text: &[u8]) -> usize
    ensures { result ≤ length text.now }
{
    text.windows(OS_ERROR.len())
        .position(|w| w == OS_ERROR)
        .unwrap_or(text.len())
}

// Says on standard error what failed, and why.
fn fail(rt: &HostRuntime, what: &str, error: io::Error) {
    let mut words = Words {
        bytes: [0; WORDS],
        len: 0,
    };
    let _ = write!(words, "{error}");
    let text = &words.bytes[..words.len];
    let _ = eprint!(rt; "nnef_canon: {what}: ");
    let _ = rt.stderr().write_all(&text[..words_end(text)]);
    let _ = eprintln!(rt);
}

// Writes bytes to standard output, or says that it cannot.
fn write_out(rt: &HostRuntime, bytes: &[u8]) {
    if let Err(error) = rt.write_all(bytes) {
        fail(rt, "cannot write standard output", error);
    }
}

// Writes what is to be shown of a document under a list. Not inlined: without a list, or with a text that cannot be read, its arrays take no stack.
#[inline(never)]
fn write_shown(rt: &HostRuntime, list: &[u8], document: &[u8]) {
    // Arrays on the stack, as for the texts below: no heap, fixed memory.
    let mut work1 = [0u32; Limits::WORK_WORDS];
    let mut work2 = [0u32; Limits::WORK_WORDS];
    let mut out = [0u8; Limits::TEXT];
    let count = show(list, document, &mut work1, &mut work2, &mut out);
    if count <= out.len() {
        write_out(rt, &out[0..count]);
    }
}

// Reads a document and writes what is to be shown of it under this list.
fn run(rt: &HostRuntime, list: &[u8]) {
    let mut document = [0u8; ROOM];
    match read_full(&mut rt.stdin(), &mut document) {
        Ok(n) => write_shown(rt, list, &document[..n]),
        Err(error) => fail(rt, "cannot read standard input", error),
    }
}

// Reads the list, and closes its file before standard input is read.
fn read_list(mut file: File, list: &mut [u8]) -> io::Result<usize>
    ensures { IfOk result (λ n. n ≤ length list.new) }
{
    read_full(&mut file, list)
}

fn main(rt: HostRuntime) {
    let Ok(file) = File::open(&rt, "declarations.nnef") else {
        write_out(&rt, b"no list\n");
        return;
    };
    let mut list = [0u8; ROOM];
    match read_list(file, &mut list) {
        Ok(n) => run(&rt, &list[..n]),
        Err(error) => fail(&rt, "cannot read declarations.nnef", error),
    }
}
