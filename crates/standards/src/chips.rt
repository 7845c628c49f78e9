// Chips of cells, or the refusal of the call that was to give them. As many as the array has, the first at the left.
ghost use Rattle.std.specs.Prelude.{◌≡◌, ◌-◌, ◌%◌, map, reverse};
ghost use Rattle.standards.specs.Cells.{Told};
ghost use Rattle.pages.specs.declared.text.Digits.TheVariants.{Binary, Hexadecimal};

use pages::P;
use pages::chips::Lines;
use pages::text::{Bits, Digits, Shown};
use refusals::Refusal;

// ---- chips by the call for C. A signal is its number here, as Chips takes it: a `Signal` would be turned back at each call.

#[tactic(auto, unfolding(gps_chips::specs::Chips::chips_answer, gps_chips::specs::Chips::chips_buffer))]
fn taken<const N: usize>(
    signal: u64,
    prn: u64,
    place: u64,
    digits: Digits,
) -> Result<Bits<N>, Refusal>
    ensures { Told signal prn place N (λ b chips. (b.bits ≡ chips) × (b.digits ≡ digits)) result }
{
    let mut bits = [0u8; N];
    gps_chips::gps_chips(signal, prn, place, &mut bits)?;
    Ok(Bits { bits, digits })
}

// The first N of the week, in these digits. Refused as Chips refuses: 1 for the signal, 2 for the PRN, 5 for N above 65,536.
pub fn first<const N: usize>(signal: u64, prn: u64, digits: Digits) -> Shown<Bits<N>>
    ensures { Told signal prn 0 N (λ b chips. (b.bits ≡ chips) × (b.digits ≡ digits)) result.0 }
{
    Shown(taken::<N>(signal, prn, 0, digits))
}

// 256 of P from a place on, round the week. Apart from `first`: that it is P, and in hexadecimal, stands in its clause. Refused with 2 for the PRN and 3 for
// a place not below the week.
pub fn first_256(prn: u64, place: u64) -> Shown<Bits<256>>
    ensures { Told 2 prn place 256 (λ b chips. (b.bits ≡ chips) × (b.digits ≡ Hexadecimal)) result.0 }
{
    Shown(taken::<256>(P, prn, place, Digits::Hexadecimal))
}

// XB's initial state, read off the first thirteen chips and not off a register, as the note of Table 3-I of IS-GPS-705 has it: XA gives ones there, so each
// chip is the complement of XB's; and the rightmost bit is the first one out.
fn xb_state(chips: Bits<13>) -> Bits<13>
    ensures complements { result.bits ≡ reverse (map (λ chip. 1 - chip % 2) chips.bits) }
    ensures same_digits { result.digits ≡ chips.digits }
{
    let mut bits = chips.bits.map(|chip| 1 - chip % 2);
    bits.reverse();
    Bits { bits, ..chips }
}

// That state of a signal of L5, by PRN, in binary; of another signal it is no state. Refused with 1 for the signal and 2 for the PRN.
pub fn xb(signal: u64, prn: u64) -> Shown<Bits<13>>
    ensures { Told signal prn 0 13 (λ b chips. (b.bits ≡ reverse (map (λ chip. 1 - chip % 2) chips)) × (b.digits ≡ Binary)) result.0 }
{
    Shown(taken::<13>(signal, prn, 0, Digits::Binary).map(xb_state))
}

// ---- Table 6-IV, by open, seek and window

fn reached(prn: u64, place: u64) -> Result<[u8; 1_024], Refusal>
    ensures { Told 2 prn place 1024 (λ written chips. written ≡ chips) result }
{
    let there = states::reach(P, prn, place)?.channel;
    let mut chips = [0u8; 1_024];
    engine::window(there, 1_024, &mut chips, 0)?;
    Ok(chips)
}

// 1,024 chips of P from a place on, round the week. Refused with 2 for the PRN and 3 for a place not below the week.
pub fn last_1024(prn: u64, place: u64) -> Shown<Lines<1024>>
    ensures { Told 2 prn place 1024 (λ lines chips. lines.0 ≡ chips) result.0 }
{
    Shown(reached(prn, place).map(Lines))
}
