// Operation lists: their rules, and the operation that checks one.
#![tactic(auto)]

pub mod best;
pub mod directory;
pub mod fitting;
mod headers;
pub mod list;
pub mod mask;
pub mod types;

ghost use Rattle.std.specs.Prelude.{◌≡◌, ◌≤◌, length, replicate};
ghost use Rattle.lexis.specs.Sizes.{max_text, work_words};
ghost use Rattle.lists.specs.Answer.{list_stages, stage_answer, declarations_answer, work_after};

use directory::Room;
use lexis::Answer;
use lexis::limits::Limits;
use list::list_stages;

// The operation: whether an operation list is well formed, and how many operations it has. After any answer but a refusal of what is
// lent the work area is zero.
pub fn declarations(list: &[u8], work: &mut [u32]) -> Answer
    ensures value { result ≡ declarations_answer list.now (length work.old) }
    ensures work_after { work.new ≡ work_after result work.old }
{
    if !Limits::work_serves(work.len()) {
        return Answer::short_room();
    }
    if !Limits::text_fits(list.len()) {
        return Answer::long_text(1);
    }
    let r = list_answer(list, &mut *work);
    clear(work);
    r
}

// The answer of the stages of a list. Leaves anything in the work area.
fn list_answer(list: &[u8], work: &mut [u32]) -> Answer
    requires list_len_bound { length list.now ≤ max_text }
    requires work_words_in_bounds { work_words ≤ length work.old }
    ensures value { result ≡ stage_answer (list_stages list.now) length }
    ensures work_len_unchanged { length work.new ≡ length work.old }
{
    // Arrays on the stack: no heap, fixed memory.
    let mut index = [0u16; Room::INDEX];
    let mut words = [0u32; Room::WORDS];
    match list_stages(list, work, &mut index, &mut words) {
        Ok(listed) => Answer::accepted(listed.operations as u32),
        Err(refused) => refused,
    }
}

// Zero in every word.
pub fn clear(work: &mut [u32])
    ensures { work.new ≡ replicate (length work.old) 0 }
{
    work.fill(0);
}
