// The chips that each register gives, one behind the other from its start on, and no end of a cycle among them: 64 to a word, the first chip as the
// highest digit. A word of 64 chips can be read from any phase on, and a register from its next chips.
#![tactic(auto, unfolding(crate::specs::Sequences::sequence, crate::specs::Sequences::given, registers::specs::Times::times, registers::specs::Register::shift, registers::specs::Register::sum_of, registers::specs::Register::stage))]

ghost use Rattle.std.specs.Prelude.{◌≡◌, ℕ, ◌+◌, ◌-◌, ◌/◌, ◌<◌, ◌≤◌, ◌^◌, length};
ghost use Rattle.starts.specs.Starts.{start_g1, start_g2, start_x1a, start_x1b, start_x2a, start_x2b, start_xa};
ghost use Rattle.sequences.specs.Sequences.{sequence, word_in};

use registers::{G1, G2, Register, X1A, X1B, X2A, X2B, XA, XB};

mod tables;

// ---- the tables

// A register whose chips are tabled, in so many words of 64.
pub trait Sequence<const WORDS: usize>: Register {
    // The register of the first chip.
    ghost from: { ℕ };

    // Its chips, which the proof computes to be the table. An associated constant would take a law in each `impl`; this takes one clause.
    fn sequence() -> &'static [u64; WORDS]
        ensures { result.now ≡ sequence Self.shift Self.width WORDS from };
}

// A cycle of 1,023 chips, and what a word from its last phase has beyond it.
impl Sequence<17> for G1 {
    ghost from = { start_g1 };

    fn sequence() -> &'static [u64; 17] {
        &tables::G1
    }
}

// As many as G1's.
impl Sequence<17> for G2 {
    ghost from = { start_g2 };

    fn sequence() -> &'static [u64; 17] {
        &tables::G2
    }
}

// A cycle of 4,092, and on.
impl Sequence<65> for X1A {
    ghost from = { start_x1a };

    fn sequence() -> &'static [u64; 65] {
        &tables::X1A
    }
}

// A cycle of 4,093, and on.
impl Sequence<65> for X1B {
    ghost from = { start_x1b };

    fn sequence() -> &'static [u64; 65] {
        &tables::X1B
    }
}

// A cycle of 4,092, and on.
impl Sequence<65> for X2A {
    ghost from = { start_x2a };

    fn sequence() -> &'static [u64; 65] {
        &tables::X2A
    }
}

// A cycle of 4,093, and on.
impl Sequence<65> for X2B {
    ghost from = { start_x2b };

    fn sequence() -> &'static [u64; 65] {
        &tables::X2B
    }
}

// A cycle of 8,190, and on.
impl Sequence<129> for XA {
    ghost from = { start_xa };

    fn sequence() -> &'static [u64; 129] {
        &tables::XA
    }
}

// From all ones, two cycles of 8,191: the start of each PRN is an advance from there.
impl Sequence<257> for XB {
    ghost from = { 8191 };

    fn sequence() -> &'static [u64; 257] {
        &tables::XB
    }
}

// ---- reading

// The 64 chips of a sequence from chip q on.
#[tactic(auto, unfolding(crate::specs::Sequences::word_in))]
pub fn word_at(sequence: &[u64], q: usize) -> u64
    requires { q / 64 + 1 < length sequence.now }
    ensures { result ≡ word_in sequence.now q }
{
    let i = q / 64;
    let early = (q % 64) as u32;
    (sequence[i] << early) | ((sequence[i + 1] >> 1) >> (63 - early))
}

// The register of chip q: its stages are the next chips, as many as it has. The bounds of its width are clauses: each call gives it as a number.
pub fn register_at(sequence: &[u64], q: usize, width: u32) -> u32
    requires chip_in_sequence { q / 64 + 1 < length sequence.now }
    requires some_stage { 1 ≤ width }
    requires stages_of_register { width ≤ 32 }
    ensures { result ≡ word_in sequence.now q / 2 ^ (64 - width) }
{
    (word_at(sequence, q) >> (64 - width)) as u32
}
