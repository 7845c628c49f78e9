// Reading, Place of and Gap: the calls on places alone, without a channel. Whoever calls, with any numbers, gets the reply that `specs/Places.antt` sets
// out. Numbers are tested whole before they are narrowed.
#![tactic(auto)]

ghost use Rattle.std.specs.Prelude.{◌≡◌, ◌<◌, ◌^◌, pos, neg_ℤ, nat_abs, FitsSigned, IfOk, ◌+ℤ◌, ◌-ℤ◌};
ghost use Rattle.std.specs.Int.{w64};
ghost use Rattle.signals.specs.Signals.{number_of};
ghost use Rattle.machine.specs.Signals.{week_of};
ghost use Rattle.places.specs.Places.{answer, epoch_chips, WeekByEpochs, of_read, reading_reply, EpochOfP, of_placed, place_of_reply, folded_by, folded, of_parted, gap_reply};
ghost use Rattle.places.specs.Places.{IsGap, BackAgain, EndValues};

use refusals::Refusal;
use signals::Signal;

mod readings;

pub use readings::Reading;

// ---- epochs

// The epochs of a week.
const EPOCHS: u64 = 403_200;

// E, the chips of an epoch of a signal.
fn epoch_chips(signal: Signal) -> u64
    ensures { result ≡ epoch_chips (number_of signal) }
{
    match signal {
        Signal::Ca => 1_534_500,
        Signal::L2Cm | Signal::L2Cl => 767_250,
        Signal::P | Signal::I5 | Signal::Q5 => 15_345_000,
    }
}

// W is 403,200 times E, for every signal.
#[tactic(auto, using(crate::proofs::Epochs::week_by_epochs))]
pub fn week_by_epochs()
    ensures { WeekByEpochs }
{}

// ---- reading

// The epoch in which a place lies, and which chip of it. Place of undoes it.
#[tactic(auto, unfolding(crate::specs::Places::reading_reply))]
pub fn reading(signal: u64, place: u64) -> Result<Reading, Refusal>
    ensures reply { of_read result ≡ reading_reply signal place }
    ensures back { IfOk result (λ r. place_of_reply signal r.epoch r.chip ≡ answer place) }
{
    let signal = Signal::try_from(signal)?;
    if signal.week() <= place {
        return Err(Refusal::Place);
    }
    let chips = epoch_chips(signal);
    let epoch = place / chips;
    let chip = place % chips;
    Ok(Reading { epoch, chip })
}

// Of P, the epoch that Reading answers is the epoch of the stepped machine there.
#[tactic(auto, using(crate::proofs::EpochOfP::epoch_of_p))]
pub fn epoch_of_p()
    ensures { EpochOfP }
{}

// ---- place of

// The place of a chip of an epoch. Reading undoes it.
#[tactic(auto, unfolding(crate::specs::Places::place_of_reply))]
pub fn place_of(signal: u64, epoch: u64, chip: u64) -> Result<u64, Refusal>
    ensures reply { of_placed result ≡ place_of_reply signal epoch chip }
    ensures back { IfOk result (λ place. reading_reply signal place ≡ answer (epoch, chip)) }
{
    let signal = Signal::try_from(signal)?;
    if EPOCHS <= epoch {
        return Err(Refusal::Epoch);
    }
    let chips = epoch_chips(signal);
    if chips <= chip {
        return Err(Refusal::Chip);
    }
    Ok(epoch * chips + chip)
}

// ---- gap

// b - a, of two places.
fn difference(a: u64, b: u64) -> i64
    requires a_fits { a < 2 ^ 63 }
    requires b_fits { b < 2 ^ 63 }
    ensures { result ≡ pos b -ℤ pos a }
{
    (b as i64) - (a as i64)
}

// The difference d of two places, folded around the week into -half to half - 1.
fn fold(half: i64, week: i64, d: i64) -> i64
    requires opposite_fits { FitsSigned w64 (neg_ℤ half) }
    requires less_fits { FitsSigned w64 (d -ℤ week) }
    requires more_fits { FitsSigned w64 (d +ℤ week) }
    ensures { result ≡ folded_by half week d }
{
    if half <= d {
        return d - week;
    }
    if d < -half {
        return d + week;
    }
    d
}

// The signed chips from a to b, two places of a week that fits twice into an i64.
fn chips_between(week: u64, a: u64, b: u64) -> i64
    requires week_fits_twice { week < 2 ^ 62 }
    requires a_in_week { a < week }
    requires b_in_week { b < week }
    ensures { result ≡ folded week (pos b -ℤ pos a) }
{
    fold((week / 2) as i64, week as i64, difference(a, b))
}

// The signed chips from one place to another, by the shorter way round the week: the only number from -W/2 to W/2 - 1 that is congruent to b - a modulo W.
#[tactic(auto, unfolding(crate::specs::Places::gap_reply))]
pub fn gap(signal: u64, a: u64, b: u64) -> Result<i64, Refusal>
    ensures reply { of_parted result ≡ gap_reply signal a b }
    ensures only { IfOk result (λ g. IsGap (week_of signal) a b g) }
    ensures back_again { IfOk result (λ g. BackAgain signal a b g) }
{
    let week = Signal::try_from(signal)?.week();
    if week <= a || week <= b {
        return Err(Refusal::Place);
    }
    Ok(chips_between(week, a, b))
}

// How many chips a gap is, whatever its sign, for who writes it as text. A promise of its own to callers, met by `unsigned_abs` of std.
pub fn size(chips: i64) -> u64
    ensures { result ≡ nat_abs chips }
{
    chips.unsigned_abs()
}

// ---- the ends of the ranges

// What the three calls answer at the ends of their ranges and just past them.
#[tactic(auto, using(crate::proofs::EndValues::end_values))]
pub fn end_values()
    ensures { EndValues }
{}
