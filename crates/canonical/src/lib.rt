// The operation that writes the canonical text of a document.
#![tactic(auto)]

pub mod program;
mod texts;

ghost use Rattle.std.specs.Prelude.{◌≡◌, ◌≤◌, length};
ghost use Rattle.lexis.specs.Sizes.{max_text, work_words};
ghost use Rattle.lists.specs.Answer.{work_after};
ghost use Rattle.documents.specs.Records.{records_words};
ghost use Rattle.canonical.specs.Answer.{text_stages, canon_room, written, canon_answer, output_after};
ghost use Rattle.canonical.specs.Inner.{Wrote, WordsServe, TextsKept};

use documents::check::areas_serve;
use documents::records::Records;
use documents::stages::both_stages;
use lexis::Answer;
use lexis::limits::Limits;
use lexis::refusal::Refusal;
use lists::clear;
use lists::directory::Room;
use syntax::tokens::Tokens;
use texts::Texts;
use writing::document::put_document;
use writing::place::keeps_limits;
use writing::writer::Writer;

// The bytes of a document whose canonical text goes into a short buffer, and the bytes of that buffer.
const SHORT_TEXT: usize = 512;

const SHORT_BUFFER: usize = 2048;

// Puts the canonical text of a document that has passed its stages into a buffer of so many bytes, and copies it into the output if it keeps the
// limits and the output holds it. A text that is longer than the buffer is put again, into the output.
fn write_by<const BUFFER: usize>(texts: &Texts<'_>, out: &mut [u8]) -> Answer
    requires buffer_bound { BUFFER ≤ max_text }
    requires texts_kept { TextsKept texts.now }
    requires records_words_in_bounds { records_words ≤ length texts.now.records.now }
    ensures { Wrote (text_stages texts.now.list.now.text.now texts.now.doc.now.text.now (length out.old)) out.old out.new result }
{
    // An array on the stack: no heap, fixed memory.
    let mut buffer = [0u8; BUFFER];
    let size = put_document(
        &mut buffer,
        texts.list,
        texts.words,
        texts.records,
        texts.doc,
        texts.calls,
    );
    if !keeps_limits(size) {
        return Answer::refused(Refusal::OverLimits, 0, 0, 0);
    }
    let end = size.bytes;
    let detail = end as u32;
    if out.len() < end {
        return Answer::refused(Refusal::ShortOutput, 0, 0, detail);
    }
    if BUFFER < end {
        put_document(
            out,
            texts.list,
            texts.words,
            texts.records,
            texts.doc,
            texts.calls,
        );
        return Answer::accepted(detail);
    }
    Writer::new(out).put_bytes(&buffer[..end]);
    Answer::accepted(detail)
}

// The canonical text of a document that has passed its stages. Short texts take a short buffer, which is soon cleared; others one that holds every
// text within the limits.
fn write(texts: &Texts<'_>, out: &mut [u8]) -> Answer
    requires texts_kept { TextsKept texts.now }
    requires records_words_in_bounds { records_words ≤ length texts.now.records.now }
    ensures { Wrote (text_stages texts.now.list.now.text.now texts.now.doc.now.text.now (length out.old)) out.old out.new result }
{
    if texts.doc.text.len() <= SHORT_TEXT {
        return write_by::<SHORT_BUFFER>(texts, out);
    }
    write_by::<{ Limits::TEXT }>(texts, out)
}

// All stages after the guards, by way of so many words for the names of the list and for its directory. Leaves anything in the work areas. Not inlined: what a
// guard refuses takes no stack for its arrays.
#[inline(never)]
fn stages_by<'a, const INDEX: usize, const WORDS: usize>(
    list: &'a [u8],
    doc: &'a [u8],
    work1: &'a mut [u32],
    work2: &'a mut [u32],
    out: &mut [u8],
) -> Answer
    requires list_len_bound { (length list.now ≤ max_text) × (length doc.now ≤ max_text) }
    requires work_words_in_bounds { (work_words ≤ length work1.old) × (work_words ≤ length work2.old) }
    requires served { WordsServe INDEX WORDS (length list.now) }
    ensures wrote { Wrote (text_stages list.now doc.now (length out.old)) out.old out.new result }
    ensures work1_len_unchanged { length work1.new ≡ length work1.old }
    ensures work2_len_unchanged { length work2.new ≡ length work2.old }
{
    // Arrays on the stack: no heap, fixed memory.
    let mut index = [0u16; INDEX];
    let mut words = [0u32; WORDS];
    let mut records = [0u16; Records::WORDS];
    match both_stages(
        list,
        doc,
        &mut *work1,
        &mut *work2,
        &mut index,
        &mut words,
        &mut records,
    ) {
        Ok(z) => {
            let list = Tokens {
                text: list,
                table: work1,
                count: z.list,
            };
            let doc = Tokens {
                text: doc,
                table: work2,
                count: z.document,
            };
            let texts = Texts {
                list: &list,
                words: &words,
                records: &records,
                doc: &doc,
                calls: z.calls,
            };
            write(&texts, out)
        }
        Err(refused) => refused,
    }
}

// The same by way of few words for a short list, which are soon cleared.
fn text_stages(
    list: &[u8],
    doc: &[u8],
    work1: &mut [u32],
    work2: &mut [u32],
    out: &mut [u8],
) -> Answer
    requires list_len_bound { (length list.now ≤ max_text) × (length doc.now ≤ max_text) }
    requires work_words_in_bounds { (work_words ≤ length work1.old) × (work_words ≤ length work2.old) }
    ensures wrote { Wrote (text_stages list.now doc.now (length out.old)) out.old out.new result }
    ensures work1_len_unchanged { length work1.new ≡ length work1.old }
    ensures work2_len_unchanged { length work2.new ≡ length work2.old }
{
    if list.len() <= Room::SHORT_TEXT {
        return stages_by::<{ Room::SHORT_INDEX }, { Room::SHORT_WORDS }>(
            list, doc, work1, work2, out,
        );
    }
    stages_by::<{ Room::INDEX }, { Room::WORDS }>(list, doc, work1, work2, out)
}

// The operation: after acceptance the output begins with the canonical text of the document. After any answer but a refusal of what is
// lent both work areas are zero. Its guards are those of `order`; what they guard differs.
pub fn canon(
    list: &[u8],
    doc: &[u8],
    work1: &mut [u32],
    work2: &mut [u32],
    out: &mut [u8],
) -> Answer
    ensures value { result ≡ canon_answer list.now doc.now (canon_room work1.old work2.old out.old) }
    ensures out_after { out.new ≡ output_after
        (written list.now doc.now (canon_room work1.old work2.old out.old)) out.old }
    ensures work1_after { work1.new ≡ work_after result work1.old }
    ensures work2_after { work2.new ≡ work_after result work2.old }
{
    if !areas_serve(work1.len(), work2.len()) {
        return Answer::short_room();
    }
    if !Limits::text_fits(list.len()) {
        return Answer::long_text(1);
    }
    if !Limits::text_fits(doc.len()) {
        return Answer::long_text(2);
    }
    let r = text_stages(list, doc, &mut *work1, &mut *work2, out);
    clear(work1);
    clear(work2);
    r
}
