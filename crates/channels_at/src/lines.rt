// P's delay line at a place, by words of X2's next chips.

ghost use Rattle.std.specs.Prelude.{◌≡◌, ◌+◌, ◌-◌, ◌*◌, ◌/◌, ◌%◌, ◌<◌, ◌≤◌, ◌^◌, length};
ghost use Rattle.machine.specs.Signals.{week_p, signal_p};
ghost use Rattle.week.specs.Week.{courses_p, line_at};
ghost use Rattle.sequences.specs.Sequences.{word_in};
ghost use Rattle.channels_at.specs.Next.{next_by};

use machine::Mode;
use registers::{X2A, X2B};
use sequences::Sequence;
use week::Standing;

// The bits of the delay line.
const LINE_BITS: u64 = 37;

// The next chips of a generator as the highest digits of a word, and how many of its digits they are.
#[derive(Clone, Copy, Debug, PartialEq, Eq)]
pub(crate) struct Next {
    pub word: u64,
    pub chips: u64,
}

// Of a generator that runs, those of its table up to the cycle's last phase; of one that is held,
// the same chip as long as it is held.
#[inline(always)]
fn next_of(at: Standing, last: u32, table: &[u64]) -> Next
    requires phase_in_cycle { at.phase ≤ last }
    requires table_reaches { last / 64 + 1 < length table.now }
    ensures { result ≡ next_by at.mode (word_in table.now at.phase) (last - at.phase) }
{
    let word = sequences::word_at(table, at.phase as usize);
    match at.mode {
        Mode::Running => Next {
            word,
            chips: u64::from(last - at.phase) + 1,
        },
        Mode::Held(left) => Next {
            word: (word >> 63) * u64::MAX,
            chips: u64::from(left) + 1,
        },
    }
}

// The delay line n chips later, by X2's next chips.
#[inline(always)]
fn line_after(line: u64, x2: u64, n: u32) -> u64
    requires some_chips { 1 ≤ n }
    requires part_of_word { n < 64 }
    ensures { result ≡ (line * 2 ^ n + x2 / 2 ^ (64 - n)) % 2 ^ 37 }
{
    let kept = (line << n) % machine::LINE_LIMIT;
    let taken = (x2 >> (64 - n)) % machine::LINE_LIMIT;
    (kept + taken) % machine::LINE_LIMIT
}

// The delay line at a place: behind ones, the X2 chips of the 37 places before, or of all before it
// where there are fewer. As many chips at once as there are up to the next end of a cycle or of a
// hold.
pub(crate) fn line_at(place: u64) -> u64
    requires { place < week_p }
    ensures { result ≡ line_at (signal_p 1) courses_p place }
{
    let mut at = place.saturating_sub(LINE_BITS);
    let mut line = machine::LINE_LIMIT - 1;
    while at < place {
        let x2a = next_of(
            generators_at::standing_of::<X2A>(at),
            machine::LAST_X2A,
            X2A::sequence(),
        );
        let x2b = next_of(
            generators_at::standing_of::<X2B>(at),
            machine::LAST_X2B,
            X2B::sequence(),
        );
        let n = x2a.chips.min(x2b.chips).min(place - at);
        line = line_after(line, x2a.word ^ x2b.word, n as u32);
        at += n;
    }
    line
}
