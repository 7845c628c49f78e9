// The chips of each register's cycle as columns: a byte has eight chips, 16 apart, so that 16
// neighbouring bytes are the next 128 chips. A table goes on round its cycle behind the cycle's
// end, so that 128 chips can be read from any phase.
#![tactic(auto, unfolding(crate::specs::Columns::chips_of, crate::specs::Columns::round, crate::specs::Columns::beside, crate::specs::Columns::in_columns, registers::specs::Register::shift, registers::specs::Register::sum_of, registers::specs::Register::stage))]

ghost use Rattle.std.specs.Prelude.{◌≡◌, ℕ, ◌+◌, ◌/◌, ◌%◌, ◌^◌, ◌<◌, ◌≤◌, length, map, take, drop};
ghost use Rattle.registers.specs.Register.{shift_g1, shift_g2, shift_x1a, shift_x1b, shift_x2a, shift_x2b, shift_xa, shift_xb};
ghost use Rattle.starts.specs.Starts.{start_g1, start_g2, start_x1a, start_x1b, start_x2a, start_x2b, start_xa};
ghost use Rattle.columns.specs.Columns.{chips_of, round, in_columns, chip_in, Round, Sums, SumsTwo};
ghost use Rattle.columns.specs.Rows.{row};

use std::simd::prelude::*;

mod tables;

// G1's columns: IS-GPS-200 3.3.2.3.
pub fn g1() -> &'static [u8; 1038]
    ensures { result.now ≡ in_columns (round 127 (chips_of shift_g1 10 1023 start_g1)) }
{
    &tables::G1
}

// G2's columns, as it runs, with the delay of no PRN.
pub fn g2() -> &'static [u8; 1038]
    ensures { result.now ≡ in_columns (round 127 (chips_of shift_g2 10 1023 start_g2)) }
{
    &tables::G2
}

// X1A's columns, of a cycle of 4,092 chips: IS-GPS-200 3.3.2.2.
pub fn x1a() -> &'static [u8; 4107]
    ensures { result.now ≡ in_columns (round 127 (chips_of shift_x1a 12 4092 start_x1a)) }
{
    &tables::X1A
}

// X1B's columns, of 4,093 chips.
pub fn x1b() -> &'static [u8; 4108]
    ensures { result.now ≡ in_columns (round 127 (chips_of shift_x1b 12 4093 start_x1b)) }
{
    &tables::X1B
}

// X2A's columns, of 4,092 chips.
pub fn x2a() -> &'static [u8; 4107]
    ensures { result.now ≡ in_columns (round 127 (chips_of shift_x2a 12 4092 start_x2a)) }
{
    &tables::X2A
}

// X2B's columns, of 4,093 chips.
pub fn x2b() -> &'static [u8; 4108]
    ensures { result.now ≡ in_columns (round 127 (chips_of shift_x2b 12 4093 start_x2b)) }
{
    &tables::X2B
}

// XA's columns, of a cycle of 8,190 chips: IS-GPS-705 3.3.2.2.
pub fn xa() -> &'static [u8; 8205]
    ensures { result.now ≡ in_columns (round 127 (chips_of shift_xa 13 8190 start_xa)) }
{
    &tables::XA
}

// XB's columns, of the 8,191 chips of its natural course from all ones: XB of a PRN begins as many
// chips on as its advance says.
pub fn xb() -> &'static [u8; 8206]
    ensures { result.now ≡ in_columns (round 127 (chips_of shift_xb 13 8191 8191)) }
{
    &tables::XB
}

// Chips k * 16 and on of sixteen columns, one to a lane.
#[inline(always)]
fn chips_at(columns: u8x16, k: usize) -> u8x16
    requires { k < 8 }
    ensures { result ≡ map (λ c. c / 2 ^ k % 2) columns }
{
    (columns >> u8x16::splat(k as u8)) & u8x16::splat(1)
}

// Writes the chips of sixteen columns over a slice one by one, from a number on to its end. Those
// before that number stand there.
#[inline(always)]
fn write_last(columns: u8x16, from: usize, out: &mut [u8])
    requires room { length out.old ≤ 128 }
    requires within { from ≤ length out.old }
    requires begun { take from out.old ≡ row (chip_in columns) from }
    ensures { out.new ≡ row (chip_in columns) (length out.old) }
{
    let lanes = columns.to_array();
    for m in from..out.len() {
        out[m] = (lanes[m % 16] >> (m / 16)) % 2;
    }
}

// Writes the first chips of the 128 of sixteen columns over a slice, as many as it has room for: by
// sixteens, and the last few one by one.
#[inline(always)]
pub fn write(columns: u8x16, out: &mut [u8])
    requires { length out.old ≤ 128 }
    ensures { out.new ≡ row (chip_in columns) (length out.old) }
{
    let sixteens = out.len() / 16;
    for k in 0..sixteens {
        chips_at(columns, k).copy_to_slice(&mut out[k * 16..k * 16 + 16]);
    }
    write_last(columns, sixteens * 16, out);
}

// The sixteen columns from a phase on, whose 128 chips are the next ones.
#[inline(always)]
pub fn sixteen(columns: &[u8], phase: usize) -> u8x16
    requires { phase + 16 ≤ length columns.now }
    ensures { result ≡ take 16 (drop phase columns.now) }
{
    u8x16::from_slice(&columns[phase..phase + 16])
}

// A phase 128 chips on, round a cycle.
#[inline(always)]
fn on(phase: usize, cycle: usize) -> usize
    requires in_cycle { phase < cycle }
    requires long { 128 ≤ cycle }
    requires not_long { cycle ≤ 65536 }
    ensures { result ≡ (phase + 128) % cycle }
{
    let next = phase + 128;
    // below the cycle the difference wraps to a number far above it, and the lesser is the phase itself
    next.min(next.wrapping_sub(cycle))
}

// The phases of P's four generators, X1A, X1B, X2A and X2B in order: chips since the start of a
// cycle of 4,092, 4,093, 4,092 and 4,093 chips.
#[derive(Clone, Copy)]
pub struct Four {
    pub a: usize,
    pub b: usize,
    pub c: usize,
    pub d: usize,
}

// Writes the next chips of four generators with the cycles of P's, added, over a slice: 128 at a
// time, each phase taken on round its cycle, and then the rest.
pub fn write_four(a: &[u8], b: &[u8], c: &[u8], d: &[u8], from: Four, out: &mut [u8])
    requires room_a { 4107 ≤ length a.now }
    requires room_b { 4108 ≤ length b.now }
    requires room_c { 4107 ≤ length c.now }
    requires room_d { 4108 ≤ length d.now }
    requires phase_a { from.a < 4092 }
    requires phase_b { from.b < 4093 }
    requires phase_c { from.c < 4092 }
    requires phase_d { from.d < 4093 }
    ensures { Sums a.now b.now c.now d.now from (length out.old) out.new }
{
    let mut qa = from.a;
    let mut qb = from.b;
    let mut qc = from.c;
    let mut qd = from.d;
    let blocks = out.len() / 128;
    for block in 0..blocks {
        let i = block * 128;
        let x1 = sixteen(a, qa) ^ sixteen(b, qb);
        let x2 = sixteen(c, qc) ^ sixteen(d, qd);
        write(x1 ^ x2, &mut out[i..i + 128]);
        qa = on(qa, 4092);
        qb = on(qb, 4093);
        qc = on(qc, 4092);
        qd = on(qd, 4093);
    }
    let i = blocks * 128;
    let x1 = sixteen(a, qa) ^ sixteen(b, qb);
    let x2 = sixteen(c, qc) ^ sixteen(d, qd);
    write(x1 ^ x2, &mut out[i..]);
}

// The phases of two generators, and the chips of their cycles.
#[derive(Clone, Copy)]
pub struct Two {
    pub a: usize,
    pub b: usize,
    pub cycle_a: usize,
    pub cycle_b: usize,
}

// Writes the next chips of two generators, added, over a slice, in the same way.
pub fn write_two(a: &[u8], b: &[u8], from: Two, out: &mut [u8])
    requires room_a { from.cycle_a + 15 ≤ length a.now }
    requires room_b { from.cycle_b + 15 ≤ length b.now }
    requires phase_a { from.a < from.cycle_a }
    requires phase_b { from.b < from.cycle_b }
    requires long_a { 128 ≤ from.cycle_a }
    requires long_b { 128 ≤ from.cycle_b }
    requires not_long_a { from.cycle_a ≤ 65536 }
    requires not_long_b { from.cycle_b ≤ 65536 }
    ensures { SumsTwo a.now b.now from (length out.old) out.new }
{
    let mut qa = from.a;
    let mut qb = from.b;
    let blocks = out.len() / 128;
    for block in 0..blocks {
        let i = block * 128;
        write(sixteen(a, qa) ^ sixteen(b, qb), &mut out[i..i + 128]);
        qa = on(qa, from.cycle_a);
        qb = on(qb, from.cycle_b);
    }
    let i = blocks * 128;
    write(sixteen(a, qa) ^ sixteen(b, qb), &mut out[i..]);
}
