// Decimal numbers without leading zeros: read up to 255, written up to 2^64 - 1 (SPECIFICATION 2).
#![tactic(auto)]

ghost use Rattle.std.specs.Prelude.{◌≡◌, ◌<◌, ◌≤◌, IfSome, length, get_or};
ghost use Rattle.decimal.specs.Bytes.{Written};
ghost use Rattle.decimal.specs.Decimal.{numeral, digit_at, read_number};

// The byte at i, or 0 past the end.
// No field has the byte 0, so callers compare it with the byte they look for; `Some` of each such byte would be no plainer.
pub fn byte_at(s: &[u8], i: usize) -> u8
    ensures { result ≡ get_or s.now i 0 }
{
    if i < s.len() { s[i] } else { 0 }
}

// The digit at i, where there is one.
#[tactic(auto, unfolding(crate::specs::Decimal::digit_of, crate::specs::Decimal::digit_at))]
fn digit_at(s: &[u8], i: usize) -> Option<u64>
    ensures digit { result ≡ digit_at s.now i }
    ensures below_ten { IfSome result (λ d. d < 10) }
{
    let b = byte_at(s, i);
    if b'0' <= b && b <= b'9' {
        return Some((b - b'0') as u64);
    }
    None
}

// The number at the start of s, and how many bytes it took. It ends before the first byte that is no digit, after a leading 0, and after three
// digits.
#[tactic(auto, unfolding(crate::specs::Decimal::number_of, crate::specs::Decimal::read_number))]
pub fn read_number(s: &[u8]) -> Option<(u64, usize)>
    ensures { result ≡ read_number s.now }
{
    let a = digit_at(s, 0)?;
    if a == 0 {
        return Some((0, 1));
    }
    let Some(b) = digit_at(s, 1) else {
        return Some((a, 1));
    };
    let Some(c) = digit_at(s, 2) else {
        return Some((a * 10 + b, 2));
    };
    let v = a * 100 + b * 10 + c;
    if 255 < v {
        return None;
    }
    Some((v, 3))
}

// How many digits n has: one, and one more for each power of ten up to it. Most numbers are a node or a threshold of one or two digits, which
// need no logarithm.
#[tactic(auto, using(crate::proofs::Numeral::length_digit, crate::proofs::Numeral::length_2, crate::proofs::Numeral::length_power))]
pub fn number_len(n: u64) -> usize
    ensures { result ≡ length (numeral n) }
{
    if n < 10 {
        return 1;
    }
    if n < 100 {
        return 2;
    }
    n.checked_ilog10().unwrap_or(0) as usize + 1
}

// Writes n at the front of out, its last digit behind the others, and answers how many bytes that took. Two digits are written without a call
// of itself, since most numbers have no more.
#[tactic(auto, using(crate::proofs::Numeral::length_digit, crate::proofs::Numeral::length_tens))]
pub fn put_number(out: &mut [u8], n: u64) -> usize
    requires { length (numeral n) ≤ length out.old }
    ensures { Written (numeral n) out.old out.new result }
{
    if n < 10 {
        out[0] = b'0' + n as u8;
        return 1;
    }
    if n < 100 {
        out[0] = b'0' + (n / 10) as u8;
        out[1] = b'0' + (n % 10) as u8;
        return 2;
    }
    let at = put_number(out, n / 10);
    out[at] = b'0' + (n % 10) as u8;
    at + 1
}
