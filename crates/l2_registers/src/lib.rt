// The register of L2 at a phase, from any start. Shifts are linear: what so many of them make of a
// register is the sum modulo 2 of what they make of its hexadecimal digits, whichever PRN's it is.
// So a table has, for each octal digit of a phase, what its shifts make of each such digit.
#![tactic(auto)]

ghost use Rattle.std.specs.Prelude.{◌≡◌, ◌+◌, ◌*◌, ◌/◌, ◌%◌, ◌<◌, ◌^◌, take};
ghost use Rattle.registers.specs.Times.{times};
ghost use Rattle.registers.specs.Register.{shift_l2};
ghost use Rattle.registers.specs.Row.{columns};
ghost use Rattle.l2_registers.specs.Moves.{moves};

mod tables;

// The moves by 0 to 7 times 8 ^ i shifts, for i = 0 to 6; the last of these 0 to 3 times.
#[tactic(auto, unfolding(crate::specs::Moves::moves, crate::specs::Moves::steps, crate::specs::Moves::further, crate::specs::Moves::digits_by, registers::specs::Row::combine, registers::specs::Row::columns, registers::specs::Register::shift_l2))]
fn table() -> &'static [u32; 5408]
    ensures { result.now ≡ take 5408 (moves 7 (columns shift_l2 0 27)) }
{
    &tables::MOVES
}

// Where the 104 numbers of a move have the register's hexadecimal digit g.
#[inline(always)]
fn entry(register: u32, g: u32) -> usize
    requires register_in { register < 2 ^ 27 }
    requires digit_in { g < 7 }
    ensures is { result ≡ g * 16 + register / 2 ^ (4 * g) % 16 }
    ensures within { result < 104 }
{
    (g * 16 + (register >> (4 * g)) % 16) as usize
}

// A register moved by move m of the table: what becomes of its seven hexadecimal digits, added.
#[inline(always)]
fn moved(register: u32, m: usize) -> u32
    requires register_in { register < 2 ^ 27 }
    requires in_table { m < 52 }
    ensures { result ≡ times shift_l2 (m % 8 * 8 ^ (m / 8)) register }
{
    let digits = &table()[m * 104..m * 104 + 104];
    let a = digits[entry(register, 0)] ^ digits[entry(register, 1)];
    let b = digits[entry(register, 2)] ^ digits[entry(register, 3)];
    let c = digits[entry(register, 4)] ^ digits[entry(register, 5)];
    let d = digits[entry(register, 6)];
    (a ^ b) ^ (c ^ d)
}

// The register as many shifts after a start as a phase counts. Phases of L2 CM are below 10,230 and
// of L2 CL below 767,250 (IS-GPS-200 3.3.2.4).
pub fn register_at(start: u32, phase: u32) -> u32
    requires start_in { start < 2 ^ 27 }
    requires phase_in { phase < 2 ^ 20 }
    ensures { result ≡ times shift_l2 phase start }
{
    let mut register = start;
    let mut rest = phase;
    for i in 0..7 {
        register = moved(register, i * 8 + (rest % 8) as usize);
        rest = rest / 8;
    }
    register
}
