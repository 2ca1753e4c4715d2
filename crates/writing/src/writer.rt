// A writer: it borrows the lent output, and knows the place in it up to which bytes and tokens have been put. It is lent to whatever writes on.
// A byte beyond the output is counted and not stored, so that a text that does not fit is measured.
ghost use Rattle.std.specs.Prelude.{◌≡◌, ◌∷◌, [], ℕ, ◌+◌, ◌<◌, ◌≤◌, leb, length};
ghost use Rattle.syntax.specs.Table.{token_at};
ghost use Rattle.writing.specs.Writing.{start, stored, Wrote, one_token, Puts, PutsWord};

use crate::place::{Place, one_more};
use index::token::bytes_at;
use syntax::tokens::Tokens;

// A writer: the lent output, and the place in it.
#[derive(Drop)]
pub struct Writer<'a> {
    pub out: &'a mut [u8],
    pub place: Place,
}

// Whether n bytes from a position on lie in an output of so many bytes.
fn lies_in(len: usize, at: usize, n: usize) -> bool
    ensures { result ≡ leb (at + n) len }
{
    if len < at {
        return false;
    }
    n <= len - at
}

// Stores all bytes of a word from a position on, where the output holds them. No `copy_from_slice`: it asks `memmove` of the C library, and the archive
// asks `memcpy` and `memset` alone.
fn paste(out: &mut [u8], at: usize, word: &[u8])
    requires { at + length word.now ≤ length out.old }
    ensures { out.new ≡ stored out.old at word.now }
{
    for i in 0..word.len() {
        out[at + i] = word[i];
    }
}

impl<'a> Writer<'a> {
    // A writer at the first byte of an output.
    pub fn new(out: &'a mut [u8]) -> Writer<'a>
        ensures { (result.out ≡ out.entry) × (result.place ≡ start) }
    {
        let place = Place {
            bytes: 0,
            tokens: 0,
        };
        Writer { out, place }
    }
}

impl Writer<'_> {
    // Stores one byte, if the output reaches it.
    pub fn put_byte(&mut self, b: u8)
        ensures { Wrote (b ∷ []) self.old self.new }
    {
        let at = self.place.bytes;
        if at < self.out.len() {
            self.out[at] = b;
        }
        self.place.bytes = one_more(at);
    }

    // Stores all bytes of a word, one by one.
    fn put_slowly(&mut self, word: &[u8])
        ensures { Wrote word.now self.old self.new }
    {
        for b in word {
            self.put_byte(*b);
        }
    }

    // Stores all bytes of a word.
    pub fn put_bytes(&mut self, word: &[u8])
        ensures { Wrote word.now self.old self.new }
    {
        let at = self.place.bytes;
        if !lies_in(self.out.len(), at, word.len()) {
            return self.put_slowly(word);
        }
        paste(&mut *self.out, at, word);
        self.place.bytes = at + word.len();
    }

    // Counts the token whose bytes have been stored.
    pub fn end_token(&mut self)
        ensures { self.new ≡ one_token self.old }
    {
        self.place.tokens = one_more(self.place.tokens);
    }

    // Puts a token of one byte, which needs no loop as that of `put_word` does.
    pub fn put_mark(&mut self, b: u8)
        ensures { PutsWord (b ∷ []) self.old self.new }
    {
        self.put_byte(b);
        self.end_token();
    }

    // Puts a token that is spelt so.
    pub fn put_word(&mut self, word: &[u8])
        ensures { PutsWord word.now self.old self.new }
    {
        self.put_bytes(word);
        self.end_token();
    }

    // Puts a token that is spelt so, and one byte of white space.
    pub fn put_spaced(&mut self, word: &[u8], space: u8)
        ensures { (k : ℕ) → Puts (λ q. record { kind = k; bytes = word.now; space = space ∷ [] } ∷ q) self.old self.new }
    {
        self.put_bytes(word);
        self.put_byte(space);
        self.end_token();
    }

    // Puts the token at place i as it is spelt.
    pub fn put_token(&mut self, tokens: &Tokens<'_>, i: usize)
        requires { i < tokens.now.count }
        ensures { PutsWord (token_at tokens.now.text.now tokens.now.table.now i).bytes self.old self.new }
    {
        self.put_word(bytes_at(tokens, i));
    }
}
