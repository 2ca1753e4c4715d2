// An index of the names of a text: a map from spellings to two words each. A name is found by its spelling and entered on demand. Names stand at places of
// a token table; chains by a hash lead from the latest place of a chain to the earliest. The index is lent by the caller,
// and is a parameter beside the tokens: in one struct, each function that enters a name would have to promise that the tokens stay.
#![tactic(auto)]

mod chain;
mod hash;
pub mod layout;
pub mod token;

ghost use Rattle.std.specs.Prelude.{◌≡◌, ◌+◌, ◌*◌, ◌<◌, ◌≤◌, length, set, IfSome};
ghost use Rattle.lexis.specs.Sizes.{max_tokens};
ghost use Rattle.index.specs.Layout.{link_to, name_words, word_place, word_at, word_in};
ghost use Rattle.index.specs.Indexed.{Walkable};
ghost use Rattle.index.specs.Mapped.{kept_in, Finds, LooksUp, Enters};

use crate::chain::seek;
use crate::hash::chain_of;
use crate::layout::Layout;
use crate::token::bytes_at;
use syntax::tokens::Tokens;

// The place of the name that is spelt w. Inlined where it is asked, as `enter` and `look_up` are.
#[inline(always)]
fn find(tokens: &Tokens<'_>, index: &[u16], w: &[u8]) -> Option<usize>
    requires walkable { Walkable index.now tokens.now.count tokens.now.count }
    ensures finds { Finds tokens.now.text.now tokens.now.table.now index.now w.now (link_to result) }
    ensures upper_bound { link_to result ≤ tokens.now.count }
{
    let first = index[chain_of(w)] as usize;
    seek(tokens, index, first, w)
}

// The place of the name that is spelt as the token at place t, which is entered if there was none.
#[inline(always)]
pub fn enter(tokens: &Tokens<'_>, index: &mut [u16], t: usize) -> usize
    requires t_lt_n { (t < tokens.now.count) × (t < max_tokens) }
    requires walkable { Walkable index.old t tokens.now.count }
    ensures enters { Enters tokens.now.text.now tokens.now.table.now index.old index.new t result }
    ensures walkable_2 { Walkable index.new (t + 1) tokens.now.count }
    ensures upper_bound { result ≤ t }
{
    let w = bytes_at(tokens, t);
    let c = chain_of(w);
    let first = index[c] as usize;
    if let Some(p) = seek(tokens, index, first, w) {
        return p;
    }
    index[Layout::CHAINS + t * Layout::PLACE_WORDS] = first as u16;
    index[c] = (t + 1) as u16;
    t
}

// A word of the name at place p as it stands in the lent memory, where 0 is a word never given. A number, as callers compare it with one.
pub fn word_of(index: &[u16], p: usize, field: usize) -> usize
    requires { word_place p field < length index.now }
    ensures { result ≡ word_at index.now p field }
{
    index[Layout::CHAINS + p * Layout::PLACE_WORDS + 1 + field] as usize
}

// Gives the name at place p another word.
pub fn set_word(index: &mut [u16], p: usize, field: usize, x: usize)
    requires field_in_bounds { word_place p field < length index.old }
    requires x_bound { x < 65536 }
    ensures { index.new ≡ set index.old (word_place p field) x }
{
    index[Layout::CHAINS + p * Layout::PLACE_WORDS + 1 + field] = x as u16;
}

// The word that stands in the lent memory as x.
fn given(x: usize) -> Option<usize>
    ensures value { word_in result ≡ x }
    ensures nonzero { IfSome result (λ w. 0 < w) }
{
    match x {
        0 => None,
        w => Some(w),
    }
}

// Gives the name at place p a word, where it has none, and answers what it had.
pub fn keep_word(index: &mut [u16], p: usize, field: usize, x: usize) -> Option<usize>
    requires field_in_bounds { word_place p field < length index.old }
    requires x_bound { x < 65536 }
    ensures value { word_in result ≡ word_at index.old p field }
    ensures nonzero { IfSome result (λ w. 0 < w) }
    ensures index_after { index.new ≡ kept_in index.old p field x }
{
    let had = given(word_of(index, p, field));
    if had.is_none() {
        set_word(index, p, field, x);
    }
    had
}

// A word of the name that is spelt w, if it is entered and was given one.
#[inline(always)]
pub fn look_up(tokens: &Tokens<'_>, index: &[u16], w: &[u8], field: usize) -> Option<usize>
    requires walkable { Walkable index.now tokens.now.count tokens.now.count }
    requires field_lt_name_words { field < name_words }
    ensures looks_up { LooksUp tokens.now.text.now tokens.now.table.now index.now w.now field (word_in result) }
    ensures nonzero { IfSome result (λ x. 0 < x) }
{
    let p = find(tokens, index, w)?;
    given(word_of(index, p, field))
}
