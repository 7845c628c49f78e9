// How C/A's code of a PRN is set, as Table 3-Ia has it: the two stages of G2 that the engine's own table gives, and the delay of G2 in chips that gives the same
// code, found from what the calls give.
ghost use Rattle.std.specs.Prelude.{◌≡◌, ◌<◌, true, false, MatchResult};
ghost use Rattle.registers.specs.Times.{times};
ghost use Rattle.registers.specs.Register.{shift_g2};
ghost use Rattle.starts.specs.Starts.{start_g2};
ghost use Rattle.machine.specs.Machine.{is_prn};
ghost use Rattle.refusals.specs.Refusal.{number_of};
ghost use Rattle.pages.specs.Cells.{of_shown};
ghost use Rattle.standards.specs.CodePhases.{ByPrn, register_from, delayed_g2, stages_cell, delay_cell};

use pages::CA;
use pages::text::Shown;
use pages::values::Value;
use refusals::Refusal;
use starts::Prn;

// ---- stages

fn listed(prn: u64) -> Result<Value, Refusal>
    ensures { of_shown result ≡ stages_cell prn }
{
    let prn = Prn::try_from(prn)?;
    let stages = starts::stages_ca(prn);
    Ok(Value::Stages {
        first: stages.first,
        second: stages.second,
    })
}

// The two stages of G2 that the code of a PRN adds to G1. Refused with 2 for the PRN.
pub fn stages(prn: u64) -> Shown<Value>
    ensures { of_shown result.0 ≡ stages_cell prn }
{
    Shown(listed(prn))
}

// ---- the delay

// The register of ten stages that gives these chips at its stage 10, the first of them now.
fn register_of(chips: [u8; 10]) -> u32
    ensures within { result < 1024 }
    ensures taken_in { result ≡ register_from chips }
{
    let mut register = 0u32;
    for chip in chips {
        register = (register * 2 + u32::from(chip)) % 1_024;
    }
    register
}

// The delayed G2 of a PRN at the start of the week, as a register: C/A's first ten chips less G1's, which stand in its register as the channel is opened. Sums
// and differences modulo 2 are the same.
fn delayed(prn: u64) -> Result<u32, Refusal>
    ensures { ByPrn prn (λ register. register ≡ delayed_g2 prn) result }
{
    let g1 = engine::open(CA, prn)?.first.register;
    let mut chips = [0u8; 10];
    gps_chips::gps_chips(CA, prn, 0, &mut chips)?;
    Ok(register_of(chips) ^ g1)
}

// G2's own register at a place of its first cycle.
fn g2_at(prn: u64, place: u64) -> Result<u32, Refusal>
    requires { place < 1023 }
    ensures { ByPrn prn (λ register. register ≡ times shift_g2 place start_g2) result }
{
    let there = states::reach(CA, prn, place)?.channel;
    Ok(there.second.register)
}

// By how many chips of its cycle of 1,023 G2 has to wait to be the delayed one. That it comes to be so is what the clause says: no PRN is left over.
fn wait(prn: u64) -> Result<Value, Refusal>
    ensures { of_shown result ≡ delay_cell prn }
{
    let wanted = delayed(prn)?;
    for place in 0..1_023u64 {
        if g2_at(prn, place)? == wanted {
            return Ok(Value::Delay(1_023 - place));
        }
    }
    Ok(Value::Delay(0))
}

// The code delay of a PRN in chips. Refused with 2 for the PRN.
pub fn delay(prn: u64) -> Shown<Value>
    ensures { of_shown result.0 ≡ delay_cell prn }
{
    Shown(wait(prn))
}
