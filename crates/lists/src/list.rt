// The stages of an operation list: bytes, syntax, rules.
ghost use Rattle.std.specs.Prelude.{◌≤◌, min, length};
ghost use Rattle.lexis.specs.Sizes.{max_text, max_tokens, work_words};
ghost use Rattle.lists.specs.Stages.{ListRead, ListDone, Served};

use crate::headers::headers;
use lexis::Answer;
use syntax::tokens::Tokens;
use syntax::{Syntax, read};

// How many tokens and operations a list has.
#[derive(Clone, Copy)]
pub struct Listed {
    pub tokens: usize,
    pub operations: usize,
}

// The rules of the list of n tokens in a work area. Leaves its directory and its names.
fn rules_stage(
    text: &[u8],
    work: &[u32],
    n: usize,
    index: &mut [u16],
    words: &mut [u32],
) -> Result<Listed, Answer>
    requires list_read { ListRead text.now work.now n }
    requires text_len_bound { (length text.now ≤ max_text) × (n ≤ max_tokens) }
    requires served { Served index.old words.old n }
    ensures { ListDone text.now work.now index.new words.new result }
{
    let tokens = Tokens {
        text,
        table: work,
        count: n,
    };
    let ruled = headers(&tokens, index, words);
    if let Some(fault) = ruled.best.fault {
        return Err(Answer {
            code: fault.code,
            text: 1,
            position: fault.at,
            detail: fault.detail,
        });
    }
    Ok(Listed {
        tokens: n,
        operations: ruled.count,
    })
}

// The three stages of a list. Where it passes, the work area holds its table, `words` its directory and `index` its names; else anything.
pub fn list_stages(
    text: &[u8],
    work: &mut [u32],
    index: &mut [u16],
    words: &mut [u32],
) -> Result<Listed, Answer>
    requires text_len_bound { (length text.now ≤ max_text) × (work_words ≤ length work.old) }
    requires served { Served index.old words.old (min (length text.now) max_tokens) }
    ensures { ListDone text.now work.new index.new words.new result }
{
    match read(text, &mut *work, Syntax::List) {
        Ok(n) => rules_stage(text, work, n as usize, index, words),
        Err(fault) => Err(Answer::refused(fault.refusal, 1, fault.at, 0)),
    }
}
