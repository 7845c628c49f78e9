// Numbers with commas, bits as digits, and a refusal in the place of what was asked for.
ghost use Rattle.std.specs.Prelude.{◌<◌};

use refusals::Refusal;
use std::fmt;

// ---- numbers

// A number with a comma between its groups of three digits, counted from the right.
#[derive(Clone, Copy, Debug, PartialEq, Eq)]
pub struct Grouped(pub u64);

fn write_grouped<W: fmt::Write>(f: &mut fmt::Formatter<W>, n: u64) -> fmt::Result {
    if n < 1_000 {
        return write!(f, "{n}");
    }
    write_grouped(f, n / 1_000)?;
    let last = n % 1_000;
    write!(f, ",{last:03}")
}

impl fmt::Display for Grouped {
    fn fmt<W: fmt::Write>(&self, f: &mut fmt::Formatter<W>) -> fmt::Result {
        write_grouped(f, self.0)
    }
}

// ---- bits

// What a digit stands for: one chip or stage, three, or four.
#[derive(Clone, Copy, Debug, PartialEq, Eq)]
pub enum Digits {
    Binary = 1,
    Octal = 3,
    Hexadecimal = 4,
}

impl Digits {
    fn width(self) -> usize
        ensures { 0 < result }
    {
        self as usize
    }
}

// Chips or stages as one number, the first of them its highest digit in base two. If they do not fill the digits the first digit has fewer, as in the
// standards' octal: ten chips are one digit of one chip and three digits of three.
#[derive(Clone, Copy, Debug, PartialEq, Eq)]
pub struct Bits<const N: usize> {
    pub bits: [u8; N],
    pub digits: Digits,
}

// The remainders keep a digit below 16, whatever the bytes are. For `Lines` too, so not `Bits`' own. No clause and no `ghost output`:
// of the tables' text contracts tell the generators' names alone, and the gate compares all of it.
pub(crate) fn write_bits<W: fmt::Write>(
    f: &mut fmt::Formatter<W>,
    bits: &[u8],
    digits: Digits,
) -> fmt::Result {
    for group in bits.rchunks(digits.width()).rev() {
        let digit = group
            .iter()
            .fold(0u8, |digit, bit| digit % 8 * 2 + *bit % 2);
        write!(f, "{digit:X}")?;
    }
    Ok(())
}

impl<const N: usize> fmt::Display for Bits<N> {
    fn fmt<W: fmt::Write>(&self, f: &mut fmt::Formatter<W>) -> fmt::Result {
        write_bits(f, &self.bits, self.digits)
    }
}

// ---- refusals

// What a call gave, or that it refused.
#[derive(Clone, Copy, Debug, PartialEq, Eq)]
pub struct Shown<T>(pub Result<T, Refusal>);

impl<T: fmt::Display> fmt::Display for Shown<T> {
    fn fmt<W: fmt::Write>(&self, f: &mut fmt::Formatter<W>) -> fmt::Result {
        match &self.0 {
            Ok(value) => write!(f, "{value}"),
            Err(refusal) => write!(f, "refused {}", refusal.number()),
        }
    }
}
