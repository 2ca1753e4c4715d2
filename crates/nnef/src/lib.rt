// The operations under their C names. C asks for a function each, with the contract of the one that it calls.
#![tactic(auto)]

ghost use Rattle.std.specs.Prelude.{◌≡◌, length};
ghost use Rattle.spellings.specs.Comparison.{comparison, words_of};
ghost use Rattle.lexis.specs.Answer.{tokens_answer, tokens_table};
ghost use Rattle.canonical.specs.Answer.{canon_room, written, canon_answer, output_after};
ghost use Rattle.lists.specs.Answer.{declarations_answer, work_after};
ghost use Rattle.documents.specs.Answer.{check_room, checked, check_answer, calls_after, wires_after};
ghost use Rattle.orders.specs.Answer.{order_room, order_answer};

use lexis::Answer;
use spellings::Compared;

#[unsafe(no_mangle)]
pub extern "C" fn nnef_tokens(text: &[u8], table: &mut [u32]) -> Answer
    ensures value { result ≡ tokens_answer text.now table.old }
    ensures table_after { table.new ≡ tokens_table text.now table.old }
{
    lexis::tokens(text, table)
}

#[unsafe(no_mangle)]
pub extern "C" fn nnef_declarations(list: &[u8], work: &mut [u32]) -> Answer
    ensures value { result ≡ declarations_answer list.now (length work.old) }
    ensures work_after { work.new ≡ work_after result work.old }
{
    lists::declarations(list, work)
}

#[unsafe(no_mangle)]
pub extern "C" fn nnef_check(
    list: &[u8],
    document: &[u8],
    work1: &mut [u32],
    work2: &mut [u32],
    calls: &mut [u32],
    wires: &mut [u32],
) -> Answer
    ensures value { result ≡ check_answer list.now document.now
        (check_room work1.old work2.old calls.old wires.old) }
    ensures calls_after { calls.new ≡ calls_after
        (checked list.now document.now
        (check_room work1.old work2.old calls.old wires.old))
        calls.old }
    ensures wires_after { wires.new ≡ wires_after
        (checked list.now document.now
        (check_room work1.old work2.old calls.old wires.old))
        wires.old }
    ensures work1_after { work1.new ≡ work_after result work1.old }
    ensures work2_after { work2.new ≡ work_after result work2.old }
{
    documents::check::check(list, document, work1, work2, calls, wires)
}

#[unsafe(no_mangle)]
pub extern "C" fn nnef_canon(
    list: &[u8],
    document: &[u8],
    work1: &mut [u32],
    work2: &mut [u32],
    out: &mut [u8],
) -> Answer
    ensures value { result ≡ canon_answer list.now document.now (canon_room work1.old work2.old out.old) }
    ensures out_after { out.new ≡ output_after
        (written list.now document.now (canon_room work1.old work2.old out.old)) out.old }
    ensures work1_after { work1.new ≡ work_after result work1.old }
    ensures work2_after { work2.new ≡ work_after result work2.old }
{
    canonical::canon(list, document, work1, work2, out)
}

#[unsafe(no_mangle)]
pub extern "C" fn nnef_order(
    list: &[u8],
    document: &[u8],
    work1: &mut [u32],
    work2: &mut [u32],
    order: &[u32],
) -> Answer
    ensures value { result ≡ order_answer list.now document.now (order_room work1.old work2.old) order.now }
    ensures work1_after { work1.new ≡ work_after result work1.old }
    ensures work2_after { work2.new ≡ work_after result work2.old }
{
    orders::order(list, document, work1, work2, order)
}

#[unsafe(no_mangle)]
pub extern "C" fn nnef_compare(a: &[u8], b: &[u8]) -> Compared
    ensures { result ≡ words_of (comparison a.now b.now) }
{
    spellings::compare_words(a, b)
}
