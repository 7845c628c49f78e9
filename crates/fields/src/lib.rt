// The fields of a line of text: what stands before a space and after it, and the number in a field.
#![tactic(auto)]

ghost use Rattle.std.specs.Prelude.{◌≡◌, true, false, ◌≤◌, ◌-◌, length, MatchOption, OnSome};
ghost use Rattle.fields.specs.Fields.{before, after, digit, digits, is_number, value, shorn};

// What parts two fields.
const SPACE: u8 = b' ';

// The digit that a number may begin with and lose.
const ZERO: u8 = b'0';

// The most digits that a number has.
const MOST_DIGITS: usize = 13;

// What stands before the first space and what stands after it; all and nothing, where there is none.
pub fn split(s: &[u8]) -> (&[u8], &[u8])
    ensures before { result.0.now ≡ before s.now }
    ensures after { result.1.now ≡ after s.now }
{
    match s.iter().position(|b| *b == SPACE) {
        Some(at) => (&s[..at], &s[at + 1..]),
        None => (s, &[]),
    }
}

// Whether a byte is one of the ten digits of ASCII.
pub fn is_digit(b: u8) -> bool
    ensures { result ≡ digit b }
{
    b.is_ascii_digit()
}

// Whether all bytes are digits.
fn all_digits(s: &[u8]) -> bool
    ensures { result ≡ digits s.now }
{
    s.iter().all(|b| is_digit(*b))
}

// What a digit of ASCII stands for, 0 to 9. It takes any byte from `0` on.
pub fn digit_value(b: u8) -> u64
    requires { 48 ≤ b }
    ensures { result ≡ b - 48 }
{
    u64::from(b - b'0')
}

// The number that 1 to 13 digits stand for. By hand and not by `parse`, which takes a `+` before the digits: both tests would stand here all the same.
pub fn number(s: &[u8]) -> Option<u64>
    ensures value { MatchOption result (is_number s.now ≡ false) (λ n. (is_number s.now ≡ true) × (n ≡ value s.now)) }
    ensures short { OnSome result (length s.now ≤ 13) }
{
    if s.is_empty() || MOST_DIGITS < s.len() || !all_digits(s) {
        return None;
    }
    let mut n = 0;
    for b in s {
        n = n * 10 + digit_value(*b);
    }
    Some(n)
}

// A number with its leading zeros dropped, all but the last digit at most.
pub fn without_zeros(s: &[u8]) -> &[u8]
    ensures value { result.now ≡ shorn s.now }
    ensures short { length result.now ≤ length s.now }
{
    let last = s.len().saturating_sub(1);
    match s[..last].iter().position(|b| *b != ZERO) {
        Some(zeros) => &s[zeros..],
        None => &s[last..],
    }
}
