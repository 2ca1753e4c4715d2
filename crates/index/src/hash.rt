// The hash of a spelling, four bytes at a turn.
ghost use Rattle.std.specs.Prelude.{◌≡◌, ◌-◌, ◌/◌, ◌<◌, length};
ghost use Rattle.index.specs.Hash.{mixed, mixes, short_hash, hash_of, chain_of};

use crate::layout::Layout;
use spellings::packed::four;

// One number more.
fn mix(h: u64, v: u64) -> u64
    requires { v < 4294967296 }
    ensures { result ≡ mixed h v }
{
    (h % 4294967296 + v) * 2135587861 / 65536
}

// The hash of fewer than four bytes.
fn short_hash(w: &[u8]) -> u64
    requires { 0 < length w.now }
    ensures { result ≡ short_hash w.now }
{
    let n = w.len();
    mix(
        n as u64,
        u64::from(w[0]) + u64::from(w[n / 2]) * 256 + u64::from(w[n - 1]) * 65536,
    )
}

// The bytes between the first four and the last four.
fn long_hash(w: &[u8], first: u64) -> u64
    requires { 8 < length w.now }
    ensures { result ≡ mixes ((length w.now - 5) / 4) w.now 4 first }
{
    let mut h = first;
    for k in 0..(w.len() - 5) / 4 {
        h = mix(h, four(w, 4 + k * 4));
    }
    h
}

// The hash of a spelling.
fn hash(w: &[u8]) -> u64
    ensures { result ≡ hash_of w.now }
{
    let n = w.len();
    if n == 0 {
        return 0;
    }
    if n < 4 {
        return short_hash(w);
    }
    let h = mix(mix(n as u64, four(w, 0)), four(w, n - 4));
    if n <= 8 {
        return h;
    }
    long_hash(w, h)
}

// The chain that a spelling belongs to.
pub fn chain_of(w: &[u8]) -> usize
    ensures { result ≡ chain_of w.now }
{
    hash(w) as usize % Layout::CHAINS
}
