// Where each register starts, and the two stages of G2 that a PRN's C/A code adds.
#![tactic(auto)]

ghost use Rattle.std.specs.Prelude.{◌≡◌, ℕ, ◌<◌};
ghost use Rattle.starts.specs.Starts.{start_g1, start_g2, start_xa, start_x1a, start_x1b, start_x2a, start_x2b};
ghost use Rattle.starts.specs.Prns.{TakesPrn};
ghost use Rattle.starts.specs.Starts.{stages_of, start_cm, start_cl, start_i5, start_q5};
ghost use Rattle.starts.specs.PrintedVectors.{VectorsOfI5, VectorsOfQ5};

use refusals::Refusal;
use registers::{G1, G2, Register, X1A, X1B, X2A, X2B, XA};

mod prns;
mod tables;

pub use prns::Prn;

// Refusal 2, where the number is not 1 to 37.
impl TryFrom<u64> for Prn {
    type Error = Refusal;

    ghost try_from_gives = { TakesPrn };

    fn try_from(number: u64) -> Result<Prn, Refusal> {
        if (1 <= number) & (number <= 37) {
            Ok(Prn {
                number: number as u32,
            })
        } else {
            Err(Refusal::Prn)
        }
    }
}

// Two stages of G2, counted from 1.
#[derive(Clone, Copy, Debug, PartialEq, Eq)]
pub struct Stages {
    pub first: u32,
    pub second: u32,
}

// A register that begins alike for every PRN.
pub trait FixedStart: Register {
    // Its start vector: stage k is binary digit k - 1.
    const START: u32;

    ghost START: { ℕ };
}

impl FixedStart for G1 {
    const START: u32 = 0b11_1111_1111;

    ghost START = { start_g1 };
}

impl FixedStart for G2 {
    const START: u32 = 0b11_1111_1111;

    ghost START = { start_g2 };
}

impl FixedStart for XA {
    const START: u32 = 0b1_1111_1111_1111;

    ghost START = { start_xa };
}

impl FixedStart for X1A {
    const START: u32 = 0b0010_0100_1000;

    ghost START = { start_x1a };
}

impl FixedStart for X1B {
    const START: u32 = 0b0101_0101_0100;

    ghost START = { start_x1b };
}

impl FixedStart for X2A {
    const START: u32 = 0b1001_0010_0101;

    ghost START = { start_x2a };
}

impl FixedStart for X2B {
    const START: u32 = 0b0101_0101_0100;

    ghost START = { start_x2b };
}

// The two stages of G2 that the C/A code of a PRN adds to G1.
pub fn stages_ca(prn: Prn) -> Stages
    ensures { result ≡ stages_of prn.number }
{
    let table = &tables::STAGES; // lent: read by value, a table of pairs would all be written to the stack, as one of numbers is not
    let (first, second) = table[prn.row()];
    Stages { first, second }
}

// The start of L2 CM for a PRN. Apart from the three that follow: a trait would take an `impl` for each, longer than the function.
#[tactic(auto, unfolding(crate::specs::Starts::start_cm, crate::specs::Starts::starts_cm))]
pub fn start_cm(prn: Prn) -> u32
    ensures { result ≡ start_cm prn.number }
{
    tables::CM[prn.row()]
}

// The start of L2 CL for a PRN.
#[tactic(auto, unfolding(crate::specs::Starts::start_cl, crate::specs::Starts::starts_cl))]
pub fn start_cl(prn: Prn) -> u32
    ensures { result ≡ start_cl prn.number }
{
    tables::CL[prn.row()]
}

// The start of XB of I5 for a PRN.
#[tactic(auto, using(crate::proofs::PrintedVectors::vector_i5), unfolding(crate::specs::PrintedVectors::turned, crate::specs::PrintedVectors::vectors_i5))]
pub fn start_i5(prn: Prn) -> u32
    ensures { result ≡ start_i5 prn.number }
{
    tables::I5[prn.row()]
}

// The start of XB of Q5 for a PRN.
#[tactic(auto, using(crate::proofs::PrintedVectors::vector_q5), unfolding(crate::specs::PrintedVectors::turned, crate::specs::PrintedVectors::vectors_q5))]
pub fn start_q5(prn: Prn) -> u32
    ensures { result ≡ start_q5 prn.number }
{
    tables::Q5[prn.row()]
}

// A law, with no code: XB's starts, which are the advances of IS-GPS-705, Table 3-I, are the vectors printed beside them, in every row.
#[tactic(auto, using(crate::proofs::PrintedVectors::vector_i5, crate::proofs::PrintedVectors::vector_q5))]
pub fn printed_vectors()
    ensures i5 { VectorsOfI5 }
    ensures q5 { VectorsOfQ5 }
{}
