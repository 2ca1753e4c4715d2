// The stages of both texts, shared by the operations on a document: those of the list, then those of the document under it.
ghost use Rattle.std.specs.Prelude.{◌≡◌, ◌+◌, ◌*◌, ◌/◌, ◌<◌, ◌≤◌, min, length};
ghost use Rattle.lexis.specs.Sizes.{max_text, max_tokens, work_words};
ghost use Rattle.lists.specs.Stages.{Served};
ghost use Rattle.index.specs.Layout.{index_words};
ghost use Rattle.lists.specs.Directory.{first_parameter, parameter_words};
ghost use Rattle.documents.specs.Records.{records_words};
ghost use Rattle.documents.specs.Stages.{DocumentRead, BothDone, RecordsDone};
ghost use Rattle.documents.specs.Directories.{Passed, UnderDone};

use crate::directory::Directory;
use crate::document::document_rules;
use crate::source::Source;
use index::layout::Layout;
use lexis::Answer;
use lists::directory::Room;
use lists::list::list_stages;
use syntax::tokens::Tokens;
use syntax::{Syntax, read};

// How many tokens and operations the list has, and how many tokens, calls and uses the document.
#[derive(Clone, Copy)]
pub struct Sizes {
    pub list: usize,
    pub operations: usize,
    pub document: usize,
    pub calls: usize,
    pub uses: usize,
}

// A document of at most so many tokens takes an index that is soon cleared.
const FEW: usize = 256;

const SHORT_INDEX: usize = Layout::CHAINS + FEW * Layout::PLACE_WORDS;

// The rules of a document under its list, which has k operations, by way of an index of N words.
// That the list has passed is a clause and no ghost field of `Directory`: it comes with the list's headers, and a ghost field may hold only a fact of which
// there is one proof, from which the headers that the promise speaks of could not be taken.
fn rules_in<const N: usize>(
    list: &Directory<'_>,
    k: usize,
    source: &Source<'_>,
    records: &mut [u16],
) -> Result<Sizes, Answer>
    requires list_passed { Passed list.now k }
    requires document_read { DocumentRead source.now.tokens.text.now source.now.tokens.table.now source.now.tokens.count }
    requires records_room { records_words ≤ length records.old }
    requires room { (index_words source.now.tokens.count ≤ N) × (N < 65536) }
    ensures { UnderDone list.now source.now.tokens.text.now source.now.tokens.table.now records.new result }
{
    // An array on the stack: no heap, fixed memory.
    let mut index = [0u16; N];
    let ruled = document_rules(list, source, &mut index, records);
    if let Some(fault) = ruled.best.fault {
        return Err(Answer {
            code: fault.code,
            text: 2,
            position: fault.at,
            detail: fault.detail,
        });
    }
    Ok(Sizes {
        list: list.tokens.count,
        operations: k,
        document: source.tokens.count,
        calls: ruled.calls,
        uses: ruled.uses,
    })
}

// The rules of a document under its list, which has k operations.
fn rules_stage(
    list: &Directory<'_>,
    k: usize,
    source: &Source<'_>,
    records: &mut [u16],
) -> Result<Sizes, Answer>
    requires list_passed { Passed list.now k }
    requires document_read { DocumentRead source.now.tokens.text.now source.now.tokens.table.now source.now.tokens.count }
    requires records_room { records_words ≤ length records.old }
    ensures { UnderDone list.now source.now.tokens.text.now source.now.tokens.table.now records.new result }
{
    if source.tokens.count <= FEW {
        return rules_in::<SHORT_INDEX>(list, k, source, records);
    }
    rules_in::<{ Layout::WORDS }>(list, k, source, records)
}

// The stages of a document under a list of k operations that has passed its own.
fn document_stages(
    list: &Directory<'_>,
    k: usize,
    doc: &[u8],
    work2: &mut [u32],
    records: &mut [u16],
) -> Result<Sizes, Answer>
    requires list_passed { Passed list.now k }
    requires doc_len_bound { length doc.now ≤ max_text }
    requires work_words_in_bounds { (work_words ≤ length work2.old) × (records_words ≤ length records.old) }
    ensures under_done { UnderDone list.now doc.now work2.new records.new result }
    ensures work2_len_unchanged { length work2.new ≡ length work2.old }
{
    match read(doc, &mut *work2, Syntax::Document) {
        Ok(m) => {
            let source = Source {
                tokens: Tokens {
                    text: doc,
                    table: work2,
                    count: m as usize,
                },
            };
            rules_stage(list, k, &source, records)
        }
        Err(fault) => Err(Answer::refused(fault.refusal, 2, fault.at, 0)),
    }
}

// All stages of both texts. Where they pass, the work areas hold both tables, `words` has the directory of the list and `lindex` its names, and `records` has
// the records of the document's calls and wires; else anything.
pub fn both_stages(
    list: &[u8],
    doc: &[u8],
    work1: &mut [u32],
    work2: &mut [u32],
    lindex: &mut [u16],
    words: &mut [u32],
    records: &mut [u16],
) -> Result<Sizes, Answer>
    requires list_len_bound { (length list.now ≤ max_text) × (length doc.now ≤ max_text) }
    requires work_words_in_bounds { (work_words ≤ length work1.old) × ((work_words ≤ length work2.old) × (records_words ≤ length records.old)) }
    requires served { Served lindex.old words.old (min (length list.now) max_tokens) }
    ensures both_done { BothDone list.now doc.now work1.new work2.new lindex.new words.new
        records.new result }
    ensures work1_len_unchanged { length work1.new ≡ length work1.old }
    ensures work2_len_unchanged { length work2.new ≡ length work2.old }
{
    let listed = list_stages(list, &mut *work1, &mut *lindex, &mut *words)?;
    let directory = Directory {
        tokens: Tokens {
            text: list,
            table: work1,
            count: listed.tokens,
        },
        index: lindex,
        words,
    };
    document_stages(&directory, listed.operations, doc, work2, records)
}

// The same by way of INDEX words of its own for the list's names and WORDS for its directory.
fn recorded_in<const INDEX: usize, const WORDS: usize>(
    list: &[u8],
    doc: &[u8],
    work1: &mut [u32],
    work2: &mut [u32],
    records: &mut [u16],
) -> Result<Sizes, Answer>
    requires list_len_bound { (length list.now ≤ max_text) × (length doc.now ≤ max_text) }
    requires work_words_in_bounds { (work_words ≤ length work1.old) × ((work_words ≤ length work2.old) × (records_words ≤ length records.old)) }
    requires index_room { (index_words (min (length list.now) max_tokens) ≤ INDEX) × (INDEX < 65536) }
    requires words_room { (first_parameter + min (length list.now) max_tokens / 4 * parameter_words ≤ WORDS) × (WORDS < 65536) }
    ensures records_done { RecordsDone list.now doc.now records.new result }
    ensures work1_len_unchanged { length work1.new ≡ length work1.old }
    ensures work2_len_unchanged { length work2.new ≡ length work2.old }
{
    // Arrays on the stack: no heap, fixed memory.
    let mut index = [0u16; INDEX];
    let mut words = [0u32; WORDS];
    both_stages(list, doc, work1, work2, &mut index, &mut words, records)
}

// All stages of both texts. Where they pass, `records` is all that is left. `canonical` makes the same choice of sizes in `text_stages`; what is called for
// either size differs, so that one function for both would take it as a closure with all of its contract.
pub fn recorded_stages(
    list: &[u8],
    doc: &[u8],
    work1: &mut [u32],
    work2: &mut [u32],
    records: &mut [u16],
) -> Result<Sizes, Answer>
    requires list_len_bound { (length list.now ≤ max_text) × (length doc.now ≤ max_text) }
    requires work_words_in_bounds { (work_words ≤ length work1.old) × ((work_words ≤ length work2.old) × (records_words ≤ length records.old)) }
    ensures records_done { RecordsDone list.now doc.now records.new result }
    ensures work1_len_unchanged { length work1.new ≡ length work1.old }
    ensures work2_len_unchanged { length work2.new ≡ length work2.old }
{
    if list.len() <= Room::SHORT_TEXT {
        return recorded_in::<{ Room::SHORT_INDEX }, { Room::SHORT_WORDS }>(
            list, doc, work1, work2, records,
        );
    }
    recorded_in::<{ Room::INDEX }, { Room::WORDS }>(list, doc, work1, work2, records)
}
