// The mantissa of a number, read digit by digit.
ghost use Rattle.std.specs.Prelude.{◌≡◌, ◌+◌, ◌≤◌, min, length};
ghost use Rattle.lexis.specs.Sizes.{max_number, written_end, mantissa_end};
ghost use Rattle.lexis.specs.Number.{value_from};
ghost use Rattle.lexis.specs.Push.{push, push_all};

use crate::limits::Limits;

// A mantissa without the zeros at its end, and how many those are. A mantissa too large is kept at the cap.
#[derive(Clone, Copy)]
pub struct Mantissa {
    pub value: u64,
    pub zeros: u32,
}

// One digit more.
fn pushed(m: Mantissa, b: u8) -> Mantissa
    requires value_le_mantissa_end { m.value ≤ mantissa_end }
    requires zeros_bound { m.zeros ≤ max_number + max_number }
    ensures { result ≡ push m b }
{
    let Mantissa { value, zeros } = m;
    if b == b'0' {
        if value == 0 {
            return m;
        }
        return Mantissa {
            value,
            zeros: zeros + 1,
        };
    }
    let digit = u64::from(b.saturating_sub(b'0'));
    // Without zeros and well below the cap one product is enough.
    if zeros == 0 && value < 10000000000000000 {
        return Mantissa {
            value: value * 10 + digit,
            zeros: 0,
        };
    }
    let scaled = value
        .saturating_mul(10u64.saturating_pow(zeros + 1))
        .min(Limits::MANTISSA_END);
    Mantissa {
        value: (scaled + digit).min(Limits::MANTISSA_END),
        zeros: 0,
    }
}

// These digits after those of m.
pub fn pushed_all(digits: &[u8], m: Mantissa) -> Mantissa
    requires few { length digits.now ≤ max_number }
    requires value_le_mantissa_end { m.value ≤ mantissa_end }
    requires zeros_le_max_number { m.zeros ≤ max_number }
    ensures { result ≡ push_all m digits.now }
{
    let mut a = m;
    for b in digits {
        a = pushed(a, *b);
    }
    a
}

// The number that digits spell, kept below a cap.
pub fn capped_value(digits: &[u8]) -> u32
    ensures { result ≡ min (value_from 0 digits.now) written_end }
{
    let mut v = 0;
    for b in digits {
        v = (v * 10 + u32::from(b.saturating_sub(b'0'))).min(Limits::WRITTEN_END);
    }
    v
}
