// The operation of a call, as the directory of the list has it.
ghost use Rattle.std.specs.Prelude.{◌≡◌, ◌+◌, ◌*◌, ◌<◌, ◌≤◌, length};
ghost use Rattle.lists.specs.Directory.{operation_word, operation_words};
ghost use Rattle.documents.specs.Tallies.{operation_in};
ghost use Rattle.documents.specs.Judged.{Readable};
ghost use Rattle.documents.specs.Callees.{Called};

use crate::callee::Callee;
use lists::directory::Op;
use syntax::tokens::Tokens;

// The number of its first parameter, how many it has, the mask of those without a default, the place of its first result, and the number of the type of
// its only result.
#[derive(Clone, Copy)]
pub struct Operation {
    pub first: usize,
    pub count: usize,
    pub required: u32,
    pub results: usize,
    pub code: u32,
}

// Operation k of the directory.
pub fn operation_at(words: &[u32], k: usize) -> Operation
    requires operation_words_in_bounds { k * operation_words + 5 < length words.now }
    requires k_bound { operation_word words.now k 1 ≤ operation_word words.now k 2 }
    ensures { result ≡ operation_in words.now k }
{
    let o = k * Op::WORDS;
    let first = words[o + Op::FIRST] as usize;
    Operation {
        first: first,
        count: words[o + Op::END] as usize - first,
        required: words[o + Op::REQUIRED],
        results: words[o + Op::RESULTS] as usize,
        code: words[o + Op::RESULT],
    }
}

// The same with the list that has it.
pub fn callee_at<'a>(list: &Tokens<'a>, words: &'a [u32], k: usize) -> Callee<'a>
    requires { Readable words.now list.now.count k }
    ensures { Called list.now words.now k result }
{
    Callee {
        list: *list,
        words: words,
        operation: operation_at(words, k),
    }
}
