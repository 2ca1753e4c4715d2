// The operation `check`: whether a document is well formed under an operation list, and its calls and wires.
ghost use Rattle.std.specs.Prelude.{◌≡◌, ◌&&◌, ◌≤◌, leb, length};
ghost use Rattle.lexis.specs.Sizes.{max_text, max_calls, max_uses, work_words, call_words, wire_words};
ghost use Rattle.lists.specs.Answer.{work_after};
ghost use Rattle.documents.specs.Answer.{both_stages, areas_serve, check_room, checked, check_answer, calls_after, wires_after};
ghost use Rattle.documents.specs.Records.{records_words};
ghost use Rattle.documents.specs.Checks.{Ended, Tabled};

use crate::records::{Records, copy};
use crate::stages::{Sizes, recorded_stages};
use lexis::Answer;
use lexis::limits::Limits;
use lists::clear;

// Whether the work areas have the room that is asked: the guard of every operation on a list and a document.
pub fn areas_serve(work1: usize, work2: usize) -> bool
    ensures { result ≡ areas_serve work1 work2 }
{
    if !Limits::work_serves(work1) {
        return false;
    }
    Limits::work_serves(work2)
}

// Whether the work areas and the tables have the room that is asked.
fn rooms_serve(work1: usize, work2: usize, calls: usize, wires: usize) -> bool
    ensures { result ≡ (areas_serve work1 work2 && (leb call_words calls && leb wire_words wires)) }
{
    if !areas_serve(work1, work2) {
        return false;
    }
    if !Limits::calls_serve(calls) {
        return false;
    }
    Limits::wires_serve(wires)
}

// Copies the records of texts that have passed their stages into both tables, and gives the number of calls.
fn write_tables(sizes: Sizes, records: &[u16], calls: &mut [u32], wires: &mut [u32]) -> Answer
    requires records_words_in_bounds { records_words ≤ length records.now }
    requires calls_le_max_calls { (sizes.calls ≤ max_calls) × (sizes.uses ≤ max_uses) }
    requires call_words_in_bounds { (call_words ≤ length calls.old) × (wire_words ≤ length wires.old) }
    ensures { Tabled records.now calls.old calls.new wires.old wires.new sizes result }
{
    copy(records, 0, sizes.calls * Records::CALL, calls);
    copy(records, Records::WIRES, sizes.uses * Records::WIRE, wires);
    Answer::accepted(sizes.calls as u32)
}

// The answer of the stages of both texts, and the tables where they pass. Leaves anything in the work areas.
fn both_answer(
    list: &[u8],
    doc: &[u8],
    work1: &mut [u32],
    work2: &mut [u32],
    calls: &mut [u32],
    wires: &mut [u32],
) -> Answer
    requires list_len_bound { (length list.now ≤ max_text) × (length doc.now ≤ max_text) }
    requires work_words_in_bounds { (work_words ≤ length work1.old) × (work_words ≤ length work2.old) }
    requires call_words_in_bounds { (call_words ≤ length calls.old) × (wire_words ≤ length wires.old) }
    ensures ended { Ended (both_stages list.now doc.now) calls.old calls.new wires.old wires.new
        result }
    ensures work1_len_unchanged { length work1.new ≡ length work1.old }
    ensures work2_len_unchanged { length work2.new ≡ length work2.old }
{
    // An array on the stack: no heap, fixed memory.
    let mut records = [0u16; Records::WORDS];
    match recorded_stages(list, doc, &mut *work1, &mut *work2, &mut records) {
        Ok(sizes) => write_tables(sizes, &records, calls, wires),
        Err(refused) => refused,
    }
}

// The operation: after acceptance the call table has a record for each call, the wire table one for each use. After any answer but a
// refusal of what is lent both work areas are zero.
pub fn check(
    list: &[u8],
    doc: &[u8],
    work1: &mut [u32],
    work2: &mut [u32],
    calls: &mut [u32],
    wires: &mut [u32],
) -> Answer
    ensures value { result ≡ check_answer list.now doc.now
        (check_room work1.old work2.old calls.old wires.old) }
    ensures calls_after { calls.new ≡ calls_after
        (checked list.now doc.now (check_room work1.old work2.old calls.old wires.old))
        calls.old }
    ensures wires_after { wires.new ≡ wires_after
        (checked list.now doc.now (check_room work1.old work2.old calls.old wires.old))
        wires.old }
    ensures work1_after { work1.new ≡ work_after result work1.old }
    ensures work2_after { work2.new ≡ work_after result work2.old }
{
    if !rooms_serve(work1.len(), work2.len(), calls.len(), wires.len()) {
        return Answer::short_room();
    }
    if !Limits::text_fits(list.len()) {
        return Answer::long_text(1);
    }
    if !Limits::text_fits(doc.len()) {
        return Answer::long_text(2);
    }
    let r = both_answer(list, doc, &mut *work1, &mut *work2, calls, wires);
    clear(work1);
    clear(work2);
    r
}
