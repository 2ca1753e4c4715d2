// A number as it is written, and what it reduces to.
ghost use Rattle.std.specs.Prelude.{◌≡◌, ◌+◌, ◌≤◌, min, pred, length};
ghost use Rattle.lexis.specs.Sizes.{max_number, written_end};
ghost use Rattle.lexis.specs.Shapes.{is_short};
ghost use Rattle.lexis.specs.Number.{parts_of, digits_of, written_of, minus_of, in_range, reduction_of};
ghost use Rattle.lexis.specs.Push.{no_digits, push_all};

use crate::exponent::{exponent, is_near};
use crate::limits::Limits;
use crate::mantissa::{Mantissa, capped_value, pushed_all};
use crate::number::{Number, Parts, sign_len};
use crate::span::digits_end;
use crate::token::byte_at;

// An exponent as written that is near 0 whatever the digits of a short number add to it.
const SMALL: u32 = 900;

// The bytes of a number within its size, and their parts.
#[derive(Clone, Copy)]
pub struct Numeral<'a> {
    pub bytes: &'a [u8],
    pub parts: Parts,
    pub ghost shaped: { parts ≡ parts_of bytes.now },
    pub ghost inside: { parts.whole + parts.frac + parts.exp ≤ length bytes.now },
    pub ghost few: { length bytes.now ≤ max_number },
}

impl Numeral<'_> {
    // The digits of the whole part and of the fraction, side by side.
    fn mantissa(&self) -> Mantissa
        ensures { result ≡ push_all no_digits (digits_of self.now.bytes.now self.now.parts) }
    {
        let p = self.parts;
        let whole = pushed_all(&self.bytes[..p.whole], Mantissa { value: 0, zeros: 0 });
        if p.frac == 0 {
            return whole;
        }
        let from = p.whole + 1;
        pushed_all(&self.bytes[from..p.whole + p.frac], whole)
    }

    // The exponent as written, without its sign, kept below a cap.
    fn written(&self) -> u32
        ensures { result ≡ min (written_of self.now.bytes.now self.now.parts) written_end }
    {
        let p = self.parts;
        if p.exp == 0 {
            return 0;
        }
        let start = p.whole + p.frac;
        let sign = sign_len(self.bytes, start + 1);
        let from = start + (1 + sign);
        let end = digits_end(self.bytes, from);
        capped_value(&self.bytes[from..end])
    }

    // Whether the exponent has a minus sign.
    fn is_minus(&self) -> bool
        ensures { result ≡ minus_of self.now.bytes.now self.now.parts }
    {
        let p = self.parts;
        p.exp != 0 && byte_at(self.bytes, p.whole + p.frac + 1) == b'-'
    }

    // How many digits the fraction has.
    fn points(&self) -> u32
        ensures { result ≡ pred self.now.parts.frac }
    {
        self.parts.frac.saturating_sub(1) as u32
    }

    // The number, reduced; none where it is out of range.
    pub fn reduction(&self) -> Option<Number>
        ensures { result ≡ reduction_of self.now.bytes.now self.now.parts }
    {
        let w = self.written();
        if Limits::WRITTEN < w {
            return None;
        }
        let m = self.mantissa();
        let value = m.value;
        let zeros = m.zeros;
        if value == 0 {
            return Some(Number {
                mantissa: 0,
                exponent: 0,
            });
        }
        if Limits::MANTISSA_END <= value {
            return None;
        }
        let minus = self.is_minus();
        let points = self.points();
        let e = exponent(w, minus, points, zeros);
        if !is_near(e) {
            return None;
        }
        Some(Number {
            mantissa: value,
            exponent: e,
        })
    }

    // Whether it is short: at most 18 bytes before its exponent, which is small. Such a number is in range.
    fn is_short(&self) -> bool
        ensures { result ≡ is_short self.now.bytes.now self.now.parts }
    {
        if Limits::MANTISSA_DIGITS < self.parts.whole + self.parts.frac {
            return false;
        }
        self.written() <= SMALL
    }

    // Whether it is in range. Most are short, and told without a look at their digits.
    pub fn in_range(&self) -> bool
        ensures { result ≡ in_range self.now.bytes.now self.now.parts }
    {
        self.is_short() || self.reduction().is_some()
    }
}
