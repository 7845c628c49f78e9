// The call window. Whoever calls, with any channel value, any numbers and any buffer, gets the reply that `specs/Window.antt` sets out. A refused call hands
// back the channel as it came and changes no byte.
#![tactic(auto)]

ghost use Rattle.std.specs.Prelude.{◌≡◌};
ghost use Rattle.call_window.specs.Window.{of_windowed, window_reply, Cases, ByTheStandards};

use machine::Channel;
use ranges::InRange;
use refusals::Refusal;
use replies::Refused;

// The chips that count steps would give, written to the buffer from `at` onward, and the channel moved by them. The sum of `at` and count is never formed, so
// it cannot wrap. Count, buffer and `at` are the call's own arguments, and refusals 5 and 6 are about them.
#[tactic(auto, unfolding(crate::specs::Window::window_reply))]
pub fn window(ch: Channel, count: u64, buffer: &mut [u8], at: u64) -> Result<Channel, Refused>
    ensures reply { of_windowed count at buffer.new result ≡ window_reply ch count buffer.old at }
    ensures cases { Cases ch count buffer.old at (of_windowed count at buffer.new result) }
    ensures by_the_standards { ByTheStandards ch count buffer.old at (of_windowed count at buffer.new result) }
{
    let ch = InRange::try_from(ch)?.channel;
    if by_place::MOST_CHIPS < count {
        return Err(Refused {
            refusal: Refusal::Count,
            channel: ch,
        });
    }
    let length = buffer.len() as u64;
    if length < at || length - at < count {
        return Err(Refused {
            refusal: Refusal::Room,
            channel: ch,
        });
    }
    let next = windows::write_chips(ch, count as usize, &mut buffer[at as usize..]);
    Ok(next)
}
