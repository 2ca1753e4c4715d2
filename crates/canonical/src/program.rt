// What the program writes of an operation list and a document.
ghost use Rattle.std.specs.Prelude.{◌≡◌};
ghost use Rattle.lists.specs.Answer.{work_after};
ghost use Rattle.canonical.specs.Answer.{canon_room, written, canon_answer};
ghost use Rattle.canonical.specs.Program.{printed, shown};
ghost use Rattle.writing.specs.Writing.{passed, stored, Wrote};
ghost use Rattle.canonical.specs.Inner.{number_then};

use crate::canon;
use lexis::Answer;
use writing::spelling::put_digits;
use writing::writer::Writer;

// Stores a number in decimal and one byte after it.
fn put_number_then(out: &mut Writer<'_>, n: u32, b: u8)
    ensures { Wrote (number_then n b) out.old out.new }
{
    put_digits(out, u64::from(n));
    out.put_byte(b);
}

// Stores four numbers from the first byte on, and gives how many bytes they take. Put by the writer and not by `Display`: the contract of `show` gives their bytes.
fn put_numbers(out: &mut [u8], a: Answer) -> usize
    ensures value { result ≡ passed 0 (printed a) }
    ensures out_after { out.new ≡ stored out.old 0 (printed a) }
{
    let mut writer = Writer::new(out);
    put_number_then(&mut writer, a.code, b' ');
    put_number_then(&mut writer, a.text, b' ');
    put_number_then(&mut writer, a.position, b' ');
    put_number_then(&mut writer, a.detail, 10);
    writer.place.bytes
}

// Puts into the output what the program writes, and gives how many bytes that is.
pub fn show(list: &[u8], doc: &[u8], work1: &mut [u32], work2: &mut [u32], out: &mut [u8]) -> usize
    ensures value { result ≡ passed 0
        (shown (written list.now doc.now (canon_room work1.old work2.old out.old))) }
    ensures out_after { out.new ≡ stored out.old 0
        (shown (written list.now doc.now (canon_room work1.old work2.old out.old))) }
    ensures work1_after { work1.new ≡ work_after
        (canon_answer list.now doc.now (canon_room work1.old work2.old out.old)) work1.old }
    ensures work2_after { work2.new ≡ work_after
        (canon_answer list.now doc.now (canon_room work1.old work2.old out.old)) work2.old }
{
    let a = canon(list, doc, work1, work2, &mut *out);
    if a.code == Answer::ACCEPTED {
        return a.detail as usize;
    }
    put_numbers(out, a)
}
