// The chips of an L2 register (IS-GPS-200 3.3.2.4), 128 a turn: a register is the sum modulo 2 of
// its bytes, and what it gives is the sum of what they give.
#![tactic(auto)]

ghost use Rattle.std.specs.Prelude.{ℕ, ◌≡◌, ◌+◌, ◌*◌, ◌/◌, ◌%◌, ◌<◌, ◌^◌, length};
ghost use Rattle.registers.specs.Times.{times};
ghost use Rattle.registers.specs.Register.{shift_l2};
ghost use Rattle.columns.specs.Columns.{chip_in};
ghost use Rattle.columns.specs.Rows.{row};
ghost use Rattle.turns.specs.Turns.{rows_from, registers_of, chip_from};

use std::simd::prelude::*;

mod tables;

// The columns of the 128 chips of each register that has one byte alone: entry 256 g + b, of sixteen
// columns, is of the register whose byte g is b.
#[tactic(auto, unfolding(crate::specs::Turns::rows_from, crate::specs::Turns::registers_of, columns::specs::Columns::chips_of, columns::specs::Columns::beside, columns::specs::Columns::in_columns, registers::specs::Times::times, registers::specs::Register::shift_l2, registers::specs::Register::stage))]
fn rows() -> &'static [u8; 12416]
    ensures { result.now ≡ rows_from 776 0 }
{
    &tables::ROWS
}

// For each entry the register after its 128 chips.
#[tactic(auto, unfolding(crate::specs::Turns::rows_from, crate::specs::Turns::registers_of, columns::specs::Columns::chips_of, columns::specs::Columns::beside, columns::specs::Columns::in_columns, registers::specs::Times::times, registers::specs::Register::shift_l2, registers::specs::Register::stage))]
fn registers() -> &'static [u32; 776]
    ensures { result.now ≡ registers_of 776 0 }
{
    &tables::NEXT
}

// The entry of a register's byte g.
#[inline(always)]
fn entry(register: u32, g: u32) -> usize
    requires register_in { register < 2 ^ 27 }
    requires byte_in { g < 4 }
    ensures is { result ≡ g * 256 + register / 2 ^ (8 * g) % 256 }
    ensures within { result < 776 }
{
    (g * 256 + (register >> (8 * g)) % 256) as usize
}

// The next 128 chips of a register, in sixteen columns: those of its four bytes, added.
#[inline(always)]
fn turn(register: u32) -> u8x16
    requires { register < 2 ^ 27 }
    ensures { (j : ℕ) → j < 128 → chip_in result j ≡ chip_from register j }
{
    let rows: &[u8] = rows();
    let a = columns::sixteen(rows, entry(register, 0) * 16);
    let b = columns::sixteen(rows, entry(register, 1) * 16);
    let c = columns::sixteen(rows, entry(register, 2) * 16);
    let d = columns::sixteen(rows, entry(register, 3) * 16);
    (a ^ b) ^ (c ^ d)
}

// The register after them.
#[inline(always)]
fn turned(register: u32) -> u32
    requires { register < 2 ^ 27 }
    ensures { result ≡ times shift_l2 128 register }
{
    let registers = registers();
    let low = registers[entry(register, 0)] ^ registers[entry(register, 1)];
    let high = registers[entry(register, 2)] ^ registers[entry(register, 3)];
    low ^ high
}

// Writes the next chips of a register over a slice: 128 a turn, and of the last turn as many as
// are left.
pub fn write(register: u32, out: &mut [u8])
    requires { register < 2 ^ 27 }
    ensures { out.new ≡ row (chip_from register) (length out.old) }
{
    let mut here = register;
    let blocks = out.len() / 128;
    for block in 0..blocks {
        let i = block * 128;
        columns::write(turn(here), &mut out[i..i + 128]);
        here = turned(here);
    }
    let i = blocks * 128;
    columns::write(turn(here), &mut out[i..]);
}
