// Bytes as one number, the first the lowest.
ghost use Rattle.std.specs.Prelude.{◌≡◌, ◌+◌, ◌<◌, ◌≤◌, length};
ghost use Rattle.spellings.specs.Packed.{four_at, eight_at};

// Four bytes as one number.
pub fn four(w: &[u8], i: usize) -> u64
    requires { i + 4 ≤ length w.now }
    ensures value { result ≡ four_at w.now i }
    ensures upper_bound { result < 4294967296 }
{
    u64::from(u32::from_le_bytes([w[i], w[i + 1], w[i + 2], w[i + 3]]))
}

// Eight bytes as one number.
pub(crate) fn eight(w: &[u8], i: usize) -> u64
    requires { i + 8 ≤ length w.now }
    ensures { result ≡ eight_at w.now i }
{
    four(w, i) + four(w, i + 4) * 4294967296
}
