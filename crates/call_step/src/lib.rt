// The call step. Whoever calls, with any channel value, gets the reply that `specs/Step.antt` sets out. A refused call hands back the channel as it came.
#![tactic(auto)]

ghost use Rattle.std.specs.Prelude.{◌≡◌};
ghost use Rattle.call_step.specs.Step.{of_stepped, step_reply, ByTheStandards};

use machine::Channel;
use ranges::InRange;
use replies::Refused;

// The chip at the place where the channel came, 0 or 1, and the channel one step on.
#[derive(Clone, Copy, Debug, PartialEq, Eq)]
pub struct Stepped {
    pub chip: u8,
    pub channel: Channel,
}

// The present chip, and the channel one step on; refusal 4, with the channel as it came, where a field is out of range.
#[tactic(auto, unfolding(crate::specs::Step::step_reply))]
pub fn step(ch: Channel) -> Result<Stepped, Refused>
    ensures reply { of_stepped result ≡ step_reply ch }
    ensures by_the_standards { ByTheStandards ch (of_stepped result) }
{
    let ch = InRange::try_from(ch)?;
    let chip = steps::chip_of(ch);
    let channel = steps::step_of(ch).channel;
    Ok(Stepped { chip, channel })
}
