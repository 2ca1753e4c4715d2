// The comparison of two spellings: lengths before bytes, and the last byte before the others. Every comparison of two spellings is this one.
#![tactic(auto)]

pub mod packed;

ghost use Rattle.std.specs.Prelude.{◌≡◌, ◌<◌, length};
ghost use Rattle.spellings.specs.Comparison.{same_bytes, told, comparison, words_of, Agree};

use packed::eight;

// Whether two spellings are the same, and how many pairs of bytes were compared to tell.
#[derive(Clone, Copy)]
pub struct Comparison {
    pub same: bool,
    pub pairs: usize,
}

// A comparison as two words, as C has it.
#[repr(C)]
#[derive(Clone, Copy)]
pub struct Compared {
    pub same: u32,
    pub pairs: u32,
}

// A comparison with this verdict after so many pairs.
fn tell(same: bool, pairs: usize) -> Comparison
    ensures { result ≡ told same pairs }
{
    Comparison { same, pairs }
}

// So many bytes from the front are the same: those of all eights before the last byte, up to the first that differ.
fn agreeing(a: &[u8], b: &[u8], last: usize) -> usize
    requires { (last < length a.now) × (length a.now ≡ length b.now) }
    ensures { Agree a.now b.now result }
{
    for k in 0..last / 8 {
        if eight(a, k * 8) != eight(b, k * 8) {
            return k * 8;
        }
    }
    last / 8 * 8
}

// The comparison of two spellings.
pub fn compare(a: &[u8], b: &[u8]) -> Comparison
    ensures { result ≡ comparison a.now b.now }
{
    let n = a.len();
    if n != b.len() {
        return tell(false, 0);
    }
    if n == 0 {
        return tell(true, 0);
    }
    let last = n - 1;
    if a[last] != b[last] {
        return tell(false, 1);
    }
    for i in agreeing(a, b, last)..last {
        if a[i] != b[i] {
            return tell(false, i + 2);
        }
    }
    tell(true, n)
}

// Whether two spellings are the same.
pub fn same(a: &[u8], b: &[u8]) -> bool
    ensures { result ≡ same_bytes a.now b.now }
{
    compare(a, b).same
}

// The comparison as two words: the greatest word where the count is more.
pub fn compare_words(a: &[u8], b: &[u8]) -> Compared
    ensures { result ≡ words_of (comparison a.now b.now) }
{
    let c = compare(a, b);
    Compared {
        same: c.same as u32,
        pairs: u32::try_from(c.pairs).unwrap_or(u32::MAX),
    }
}
