// The exponent of a reduced number.
ghost use Rattle.std.specs.Prelude.{◌≡◌, ◌≤◌};
ghost use Rattle.lexis.specs.Sizes.{max_written, max_number};
ghost use Rattle.lexis.specs.Number.{signed, exponent_of, is_near};

use crate::limits::Limits;

// The written exponent with its sign.
fn signed(w: u32, minus: bool) -> i32
    requires { w ≤ max_written }
    ensures { result ≡ signed minus w }
{
    let e = w as i32;
    if minus {
        return -e;
    }
    e
}

// The exponent as written, less the digits of the fraction, plus the zeros dropped.
pub fn exponent(w: u32, minus: bool, points: u32, zeros: u32) -> i32
    requires w_le_max_written { w ≤ max_written }
    requires points_le_max_number { points ≤ max_number }
    requires zeros_le_max_number { zeros ≤ max_number }
    ensures { result ≡ exponent_of minus w points zeros }
{
    let e = signed(w, minus);
    e - points as i32 + zeros as i32
}

// Within the bound to both sides of 0.
pub fn is_near(e: i32) -> bool
    ensures { result ≡ is_near e }
{
    -Limits::EXPONENT <= e && e <= Limits::EXPONENT
}
