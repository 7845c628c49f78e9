// P's chips in lines.
use crate::text;
use crate::text::Digits;
use std::fmt;

// Chips of a line of Table 6-IV: 53 digits.
const LINE: usize = 212;

// Chips in hexadecimal, as Table 6-IV has them: the first line beside the PRN, all others below it.
#[derive(Clone, Copy, Debug, PartialEq, Eq)]
pub struct Lines<const N: usize>(pub [u8; N]);

impl<const N: usize> fmt::Display for Lines<N> {
    fn fmt<W: fmt::Write>(&self, f: &mut fmt::Formatter<W>) -> fmt::Result {
        for (i, line) in self.0.chunks(LINE).enumerate() {
            if 0 < i {
                write!(f, "\n{:17}", "")?;
            }
            text::write_bits(f, line, Digits::Hexadecimal)?;
        }
        Ok(())
    }
}
