// The directory of a list, in words: a record for each operation and, behind all of these, one for each parameter of the list, in declared order. The names of
// the list stand in an index, where each has two words.
// Words and no structs: the memory is fixed, of the size that `Room` gives, and no reference may be kept in it.
ghost use Rattle.std.specs.Prelude.{◌≡◌, ◌∷◌, [], ◌+◌, ◌*◌, ◌<◌, ◌≤◌, cond, ltb, length};
ghost use Rattle.std.proofs.lemmas.List.Edits.{sets};
ghost use Rattle.lexis.specs.Sizes.{max_operations};
ghost use Rattle.syntax.specs.Table.{token_at};
ghost use Rattle.index.specs.Indexed.{Walkable};
ghost use Rattle.lists.specs.Headers.{FindsIn};
ghost use Rattle.lists.specs.Directory.{operation_words, parameter_words, first_parameter};

use index::layout::Layout;
use index::look_up;
use index::token::bytes_at;
use lexis::limits::Limits;
use syntax::tokens::Tokens;

// The words of an operation's record: the place of its name, the number of its first parameter and that after its last, the mask of its parameters without a
// default, the place of its first result, the number of that result's type or `SEVERAL`.
#[derive(Clone, Copy)]
pub struct Op {}

impl Op {
    pub const NAME: usize = 0;

    pub const FIRST: usize = 1;

    pub const END: usize = 2;

    pub const REQUIRED: usize = 3;

    pub const RESULTS: usize = 4;

    pub const RESULT: usize = 5;

    pub const WORDS: usize = 6;
}

// The words of a parameter's record: the place of its name, the number of its type, the place of its default or 0.
#[derive(Clone, Copy)]
pub struct Param {}

impl Param {
    pub const NAME: usize = 0;

    pub const TYPE: usize = 1;

    pub const DEFAULT: usize = 2;

    pub const WORDS: usize = 3;

    // Where the records begin.
    pub const FIRST: usize = Limits::OPERATIONS * Op::WORDS;
}

// The words of a directory, and of an index of names, for a list of as many tokens as a text may have. A parameter takes four tokens at least.
#[derive(Clone, Copy)]
pub struct Room {}

impl Room {
    pub const WORDS: usize = Param::FIRST + Limits::TOKENS / 4 * Param::WORDS;

    pub const INDEX: usize = Layout::CHAINS + Limits::TOKENS * Layout::PLACE_WORDS;

    // A list of at most so many bytes has no more tokens, and takes words that are soon cleared.
    pub const SHORT_TEXT: usize = 512;

    pub const SHORT_WORDS: usize = Param::FIRST + Room::SHORT_TEXT / 4 * Param::WORDS;

    pub const SHORT_INDEX: usize = Layout::CHAINS + Room::SHORT_TEXT * Layout::PLACE_WORDS;
}

// The words of a name in the index: the number of the operation of that name, and that of the last header with a parameter or result of that name. Both are
// counted from 1; 0 in the words, which are lent, is none.
#[derive(Clone, Copy)]
pub struct Name {}

impl Name {
    pub const OPERATION: usize = 0;

    pub const HEADER: usize = 1;
}

// Stores the record of parameter j.
pub(crate) fn store_parameter(words: &mut [u32], j: usize, name: u32, code: u32, default: u32)
    requires { first_parameter + j * parameter_words + 2 < length words.old }
    ensures { words.new ≡ sets words.old (first_parameter + j * parameter_words) (name ∷ code ∷ default ∷ []) }
{
    let at = Param::FIRST + j * Param::WORDS;
    words[at] = name;
    words[at + 1] = code;
    words[at + 2] = default;
}

// Stores the record of operation k, if it is not beyond the size.
pub(crate) fn store_operation(
    words: &mut [u32],
    k: usize,
    name: u32,
    first: u32,
    end: u32,
    required: u32,
    results: u32,
    res: u32,
)
    requires { first_parameter ≤ length words.old }
    ensures { words.new ≡ cond (ltb k max_operations)
        (sets words.old (k * operation_words) (name ∷ first ∷ end ∷ required ∷ results ∷ res ∷ [])) words.old }
{
    if Limits::OPERATIONS <= k {
        return;
    }
    let at = k * Op::WORDS;
    words[at] = name;
    words[at + 1] = first;
    words[at + 2] = end;
    words[at + 3] = required;
    words[at + 4] = results;
    words[at + 5] = res;
}

// The number of the operation whose name is spelt as the token at place t of another table.
pub fn find(list: &Tokens<'_>, index: &[u16], doc: &Tokens<'_>, t: usize) -> Option<usize>
    requires walkable { Walkable index.now list.now.count list.now.count }
    requires t_lt_dn { t < doc.now.count }
    ensures { FindsIn list.now index.now (token_at doc.now.text.now doc.now.table.now t) result }
{
    let k = look_up(list, index, bytes_at(doc, t), Name::OPERATION)?;
    Some(k - 1)
}
