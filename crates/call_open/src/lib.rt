// The call open. Whoever calls, with any numbers, gets the reply that `specs/Open.antt` sets out.
#![tactic(auto)]

ghost use Rattle.std.specs.Prelude.{◌≡◌, IfOk};
ghost use Rattle.call_open.specs.Open.{of_opened, open_reply, Opened, EndValues};

use machine::Channel;
use refusals::Refusal;
use signals::{Prn, Signal};

// A channel at place 0. Numbers are tested whole before they are narrowed.
#[tactic(auto, unfolding(crate::specs::Open::open_reply))]
pub fn open(signal: u64, prn: u64) -> Result<Channel, Refusal>
    ensures reply { of_opened result ≡ open_reply signal prn }
    ensures opened { IfOk result (λ ch. Opened signal prn ch) }
{
    let signal = Signal::try_from(signal)?;
    let prn = Prn::try_from(prn)?;
    Ok(opens::open(signal, prn))
}

// What open answers to numbers that end in the bits of 1, and to two wrong numbers.
#[tactic(auto, using(crate::proofs::Opens::end_values))]
pub fn end_values()
    ensures { EndValues }
{}
