// Number tokens: from bytes to numbers.
ghost use Rattle.std.specs.Prelude.{◌≡◌, ◌+◌, ◌*◌, ◌-◌, ◌^◌, min};
ghost use Rattle.sheet.specs.Number.{digits_read, capped, natural, coordinate_of, natural_of};

use crate::fault::TextFault;
use crate::token::Token;
use point::range::LIMIT;

// A number with one decimal digit more, or the largest u64 where it is more. (By two saturating steps a long numeral takes half as long again.)
fn with_digit(value: u64, digit: u8) -> u64
    ensures { result ≡ min (value * 10 + digit) (2 ^ 64 - 1) }
{
    match value.checked_mul(10) {
        Some(tens) => tens.saturating_add(u64::from(digit)),
        None => u64::MAX,
    }
}

// The number that digits write, or the largest u64 where it is more; none where a byte is no digit.
// The library's `parse` does not tell a number past its type from one that is not well formed.
fn digits(bytes: &[u8]) -> Option<u64>
    ensures { result ≡ capped (digits_read bytes.now) }
{
    let mut value = 0u64;
    for b in bytes {
        if !b.is_ascii_digit() {
            return None;
        }
        value = with_digit(value, *b - b'0');
    }
    Some(value)
}

// The same of a numeral, which has a digit, and no needless zero in front.
fn unsigned(bytes: &[u8]) -> Option<u64>
    ensures { result ≡ capped (natural bytes.now) }
{
    match bytes {
        [] => None,
        [b'0'] => Some(0),
        [b'0', ..] => None,
        _ => digits(bytes),
    }
}

impl Token<'_> {
    // The number of a token without sign, from low to high.
    pub fn natural(self, low: u32, high: u32) -> Result<u32, TextFault>
        ensures { result ≡ natural_of low high self.entry.place self.entry.bytes.now }
    {
        let n = unsigned(self.bytes).ok_or(TextFault::Form(self.place))?;
        if u64::from(low) <= n && n <= u64::from(high) {
            Ok(n as u32)
        } else {
            Err(TextFault::Limit(self.place))
        }
    }

    // The coordinate of a token, in units.
    pub fn coordinate(self) -> Result<i32, TextFault>
        ensures { result ≡ coordinate_of self.entry.place self.entry.bytes.now }
    {
        if let [b'-', rest @ ..] = self.bytes {
            let digits = Token {
                bytes: rest,
                ..self
            };
            return match digits.natural(0, LIMIT)? {
                0 => Err(TextFault::Form(self.place)),
                n => Ok(-(n as i32)),
            };
        }
        let n = self.natural(0, LIMIT)?;
        Ok(n as i32)
    }
}
