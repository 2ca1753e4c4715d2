// The operation that checks an order of a document's calls.
#![tactic(auto)]

ghost use Rattle.std.specs.Prelude.{◌≡◌, [], ℕ, ◌+◌, ◌<◌, ◌≤◌, length};
ghost use Rattle.lexis.specs.Sizes.{max_text, max_uses, work_words};
ghost use Rattle.lists.specs.Answer.{stage_answer, work_after};
ghost use Rattle.documents.specs.Answer.{call_count};
ghost use Rattle.documents.specs.Walks.{code_of};
ghost use Rattle.documents.specs.Records.{records_words};
ghost use Rattle.orders.specs.Order.{faults_from};
ghost use Rattle.orders.specs.Answer.{order_stages, order_room, order_answer};
ghost use Rattle.orders.specs.Scratch.{call_of, needs_from, rows, Bounded, Firsts, Unmarked, all_marked, code_by, answer_of, ordered_by};

use documents::check::areas_serve;
use documents::records::Records;
use documents::stages::recorded_stages;
use lexis::Answer;
use lexis::limits::Limits;
use lexis::refusal::Refusal;
use lists::clear;

// Stores the number of the first use of each of n calls, and marks none of them.
fn prepare(records: &[u16], n: usize, firsts: &mut [u32], marks: &mut [u32])
    requires bounded { Bounded records.now n }
    requires n_in_bounds { (n ≤ length firsts.old) × (n ≤ length marks.old) }
    ensures firsts { Firsts records.now n firsts.new }
    ensures unmarked { Unmarked n marks.new }
{
    let mut uses = 0;
    for k in 0..n {
        firsts[k] = uses as u32;
        marks[k] = 0;
        uses += records[k * Records::CALL + 3] as usize;
    }
}

// Whether the calls that so many uses need, the first of them use number `from`, are all marked.
fn all_marked(records: &[u16], from: usize, count: usize, marks: &[u32]) -> bool
    requires records_words_in_bounds { (records_words ≤ length records.now) × (from + count ≤ max_uses) }
    requires by_index { (u : ℕ) → u < from + count → call_of records.now u < length marks.now }
    ensures { result ≡ all_marked marks.now (needs_from records.now from count) }
{
    for u in from..from + count {
        let call = records[Records::WIRES + u * Records::WIRE + 1] as usize;
        if marks[call] == 0 {
            return false;
        }
    }
    true
}

// Why the number k is refused, if it is, where the calls that stand before it are marked.
fn refusal_at(records: &[u16], n: usize, firsts: &[u32], marks: &[u32], k: usize) -> Option<Refusal>
    requires bounded { Bounded records.now n }
    requires n_in_bounds { (n ≤ length firsts.now) × (n ≤ length marks.now) }
    requires firsts { Firsts records.now n firsts.now }
    ensures { code_of result ≡ code_by (rows records.now n) marks.now k }
{
    if n <= k {
        return Some(Refusal::NoSuchCall);
    }
    if marks[k] != 0 {
        return Some(Refusal::RepeatedCall);
    }
    let uses = records[k * Records::CALL + 3] as usize;
    if !all_marked(records, firsts[k] as usize, uses, marks) {
        return Some(Refusal::EarlyUse);
    }
    None
}

// The answer to an order of as many numbers as there are calls. Leaves the calls that it has passed marked.
fn walk(records: &[u16], n: usize, order: &[u32], firsts: &[u32], marks: &mut [u32]) -> Answer
    requires bounded { Bounded records.now n }
    requires n_in_bounds { (n ≤ length firsts.now) × (n ≤ length marks.old) }
    requires firsts { Firsts records.now n firsts.now × Unmarked n marks.old }
    requires order_len { length order.now ≡ n }
    ensures { result ≡ answer_of n (faults_from (rows records.now n) [] 0 order.now) }
{
    for (place, call) in order.iter().enumerate() {
        let k = *call as usize;
        if let Some(refusal) = refusal_at(records, n, firsts, &*marks, k) {
            return Answer::refused(refusal, 0, place as u32, 0);
        }
        marks[k] = 1;
    }
    Answer::accepted(n as u32)
}

// The answer to an order of n calls, by way of both work areas. Leaves anything in them.
fn judge(records: &[u16], n: usize, order: &[u32], firsts: &mut [u32], marks: &mut [u32]) -> Answer
    requires bounded { Bounded records.now n }
    requires n_in_bounds { (n ≤ length firsts.old) × (n ≤ length marks.old) }
    ensures { result ≡ ordered_by (rows records.now n) order.now }
{
    if order.len() != n {
        return Answer::refused(Refusal::WrongLength, 0, 0, 0);
    }
    prepare(records, n, &mut *firsts, &mut *marks);
    walk(records, n, order, firsts, marks)
}

// All stages after the guards. Leaves anything in the work areas.
fn order_stages(
    list: &[u8],
    doc: &[u8],
    work1: &mut [u32],
    work2: &mut [u32],
    order: &[u32],
) -> Answer
    requires list_len_bound { (length list.now ≤ max_text) × (length doc.now ≤ max_text) }
    requires work_words_in_bounds { (work_words ≤ length work1.old) × (work_words ≤ length work2.old) }
    ensures value { result ≡ stage_answer (order_stages list.now doc.now order.now) call_count }
    ensures work1_len_unchanged { length work1.new ≡ length work1.old }
    ensures work2_len_unchanged { length work2.new ≡ length work2.old }
{
    // An array on the stack: no heap, fixed memory.
    let mut records = [0u16; Records::WORDS];
    match recorded_stages(list, doc, &mut *work1, &mut *work2, &mut records) {
        Ok(sizes) => judge(&records, sizes.calls, order, work1, work2),
        Err(refused) => refused,
    }
}

// The operation: whether an order has every call of the document once, and each use after its assigning call. After any answer but a
// refusal of what is lent both work areas are zero.
pub fn order(list: &[u8], doc: &[u8], work1: &mut [u32], work2: &mut [u32], order: &[u32]) -> Answer
    ensures value { result ≡ order_answer list.now doc.now (order_room work1.old work2.old) order.now }
    ensures work1_after { work1.new ≡ work_after result work1.old }
    ensures work2_after { work2.new ≡ work_after result work2.old }
{
    if !areas_serve(work1.len(), work2.len()) {
        return Answer::short_room();
    }
    if !Limits::text_fits(list.len()) {
        return Answer::long_text(1);
    }
    if !Limits::text_fits(doc.len()) {
        return Answer::long_text(2);
    }
    let r = order_stages(list, doc, &mut *work1, &mut *work2, order);
    clear(work1);
    clear(work2);
    r
}
