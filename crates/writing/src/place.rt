// A place in a text that is put piece by piece: how many bytes and tokens stand before it.
ghost use Rattle.std.specs.Prelude.{◌≡◌};
ghost use Rattle.writing.specs.Writing.{one_more, keeps_limits};

use lexis::limits::Limits;

// How many bytes and tokens have been put.
#[derive(Clone, Copy)]
pub struct Place {
    pub bytes: usize,
    pub tokens: usize,
}

// The last number of a word.
const LAST: usize = 18446744073709551615;

// Whether a text that ends at this place keeps the byte and token limits.
pub fn keeps_limits(s: Place) -> bool
    ensures { result ≡ keeps_limits s }
{
    Limits::text_fits(s.bytes) && Limits::tokens_fit(s.tokens)
}

// One more; counts stop only where a word ends.
pub fn one_more(n: usize) -> usize
    ensures { result ≡ one_more n }
{
    if n < LAST {
        return n + 1;
    }
    n
}
