// The shifts of the nine registers, each as a type of one trait. A register is a number: stage k is its binary digit k - 1, so stage 1 is the lowest
// digit. `specs/Register.antt` says what a shift is, by the stages that IS-GPS-200 and IS-GPS-705 list.
#![tactic(auto)]

ghost use Rattle.std.specs.Prelude.{◌≡◌, ℕ, ◌+◌, ◌*◌, ◌%◌, ◌^◌, ◌<◌, ◌≤◌};
ghost use Rattle.std.specs.Int.Bits.{bit_and};
ghost use Rattle.std.specs.Int.Count.{ones};
ghost use Rattle.registers.specs.Register.{shift_g1, shift_g2, shift_x1a, shift_x1b, shift_x2a, shift_x2b, shift_xa, shift_xb, shift_l2};

// A register of so many stages.
pub trait Register {
    ghost width: { ℕ };

    ghost shift: { ℕ → ℕ };

    // One past the highest number that it holds. An associated constant would take a law in each `impl`; this takes one clause.
    fn limit() -> u32
        ensures { result ≡ 2 ^ width };

    // One shift.
    fn shift(register: u32) -> u32
        requires { register < 2 ^ width }
        ensures { result ≡ shift register };
}

// One shift of a register whose highest stage stands for `top`, with a one in `taps` for each stage that is added up.
fn shifted(register: u32, top: u32, taps: u32) -> u32
    requires some_stage { 0 < top }
    requires at_most_thirteen_stages { top ≤ 2 ^ 12 }
    ensures { result ≡ register % top * 2 + ones (bit_and register taps) % 2 }
{
    register % top * 2 + (register & taps).count_ones() % 2
}

#[derive(Clone, Copy, Debug, PartialEq, Eq)]
pub struct G1;

impl Register for G1 {
    ghost width = { 10 };

    ghost shift = { shift_g1 };

    fn limit() -> u32 {
        1_024
    }

    #[tactic(auto, using(crate::proofs::Taps::g1_masked))]
    fn shift(register: u32) -> u32 {
        shifted(register, 0b10_0000_0000, 0b10_0000_0100)
    }
}

#[derive(Clone, Copy, Debug, PartialEq, Eq)]
pub struct G2;

impl Register for G2 {
    ghost width = { 10 };

    ghost shift = { shift_g2 };

    fn limit() -> u32 {
        1_024
    }

    #[tactic(auto, using(crate::proofs::Taps::g2_masked))]
    fn shift(register: u32) -> u32 {
        shifted(register, 0b10_0000_0000, 0b11_1010_0110)
    }
}

#[derive(Clone, Copy, Debug, PartialEq, Eq)]
pub struct X1A;

impl Register for X1A {
    ghost width = { 12 };

    ghost shift = { shift_x1a };

    fn limit() -> u32 {
        4_096
    }

    #[tactic(auto, using(crate::proofs::Taps::x1a_masked))]
    fn shift(register: u32) -> u32 {
        shifted(register, 0b1000_0000_0000, 0b1100_1010_0000)
    }
}

#[derive(Clone, Copy, Debug, PartialEq, Eq)]
pub struct X1B;

impl Register for X1B {
    ghost width = { 12 };

    ghost shift = { shift_x1b };

    fn limit() -> u32 {
        4_096
    }

    #[tactic(auto, using(crate::proofs::Taps::x1b_masked))]
    fn shift(register: u32) -> u32 {
        shifted(register, 0b1000_0000_0000, 0b1111_1001_0011)
    }
}

#[derive(Clone, Copy, Debug, PartialEq, Eq)]
pub struct X2A;

impl Register for X2A {
    ghost width = { 12 };

    ghost shift = { shift_x2a };

    fn limit() -> u32 {
        4_096
    }

    #[tactic(auto, using(crate::proofs::Taps::x2a_masked))]
    fn shift(register: u32) -> u32 {
        shifted(register, 0b1000_0000_0000, 0b1111_1101_1101)
    }
}

#[derive(Clone, Copy, Debug, PartialEq, Eq)]
pub struct X2B;

impl Register for X2B {
    ghost width = { 12 };

    ghost shift = { shift_x2b };

    fn limit() -> u32 {
        4_096
    }

    #[tactic(auto, using(crate::proofs::Taps::x2b_masked))]
    fn shift(register: u32) -> u32 {
        shifted(register, 0b1000_0000_0000, 0b1001_1000_1110)
    }
}

#[derive(Clone, Copy, Debug, PartialEq, Eq)]
pub struct XA;

impl Register for XA {
    ghost width = { 13 };

    ghost shift = { shift_xa };

    fn limit() -> u32 {
        8_192
    }

    #[tactic(auto, using(crate::proofs::Taps::xa_masked))]
    fn shift(register: u32) -> u32 {
        shifted(register, 0b1_0000_0000_0000, 0b1_1011_0000_0000)
    }
}

#[derive(Clone, Copy, Debug, PartialEq, Eq)]
pub struct XB;

impl Register for XB {
    ghost width = { 13 };

    ghost shift = { shift_xb };

    fn limit() -> u32 {
        8_192
    }

    #[tactic(auto, using(crate::proofs::Taps::xb_masked))]
    fn shift(register: u32) -> u32 {
        shifted(register, 0b1_0000_0000_0000, 0b1_1000_1110_1101)
    }
}

// The register of L2 CM and of L2 CL.
#[derive(Clone, Copy, Debug, PartialEq, Eq)]
pub struct L2;

impl Register for L2 {
    ghost width = { 27 };

    ghost shift = { shift_l2 };

    fn limit() -> u32 {
        134_217_728
    }

    fn shift(register: u32) -> u32 {
        shift_l2(register)
    }
}

// The shift of an L2 register. Beside the trait's, which asks for a number below 2 ^ 27: this one takes any, and callers may rely on it.
#[tactic(auto, unfolding(crate::specs::Register::shift_l2))]
pub fn shift_l2(register: u32) -> u32
    ensures { result ≡ shift_l2 register }
{
    if register % 2 == 1 {
        (register / 2) ^ 0o445112474
    } else {
        register / 2
    }
}
