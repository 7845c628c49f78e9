// The call seek. Whoever calls, with any channel value and any number, gets the reply that `specs/Seek.antt` sets out. A refused call hands back the channel
// as it came.
#![tactic(auto)]

ghost use Rattle.std.specs.Prelude.{◌≡◌, ◌≤◌, IfOk};
ghost use Rattle.call_seek.specs.Seek.{of_sought, seek_reply, Cases};

use machine::Channel;
use ranges::InRange;
use refusals::Refusal;
use replies::Refused;
pub use seeks::Sought;

// The channel of the same signal and PRN at any place of the week, and the leaps that led there. The place is tested whole.
#[tactic(auto, unfolding(crate::specs::Seek::seek_reply), using(seeks::proofs::FewLeaps::at_most_44))]
pub fn seek(ch: Channel, place: u64) -> Result<Sought, Refused>
    ensures reply { of_sought result ≡ seek_reply ch place }
    ensures few_leaps { IfOk result (λ sought. sought.leaps ≤ 44) }
    ensures cases { Cases ch place (of_sought result) }
{
    let ch = InRange::try_from(ch)?;
    let signal = ch.signal();
    if signal.week() <= place {
        return Err(Refused {
            refusal: Refusal::Place,
            channel: ch.channel,
        });
    }
    Ok(seeks::land(signal, ch.prn(), place))
}
