// A list of calls: open, and then seeks, steps and windows, each on the channel that the call before it handed back. The windows write into parts of one
// memory, and whoever listens is told each reply. `run` promises of the whole list what `lists` sets out.
#![tactic(auto)]

ghost use Rattle.std.specs.Prelude.{◌≡◌, ◌+◌, ◌-◌, ◌^◌, min, cond, length, List, [], ◌∷◌, OnOk, OnErr, IfOk, IfErr};
ghost use Rattle.machine.specs.Machine.{opened};
ghost use Rattle.refusals.specs.Refusal.{number_of};
ghost use Rattle.replies.specs.Reply.{Reply};
ghost use Rattle.call_open.specs.Open.{open_reply, channel, refusal};
ghost use Rattle.call_seek.specs.Seek.{of_sought, seek_reply};
ghost use Rattle.call_step.specs.Step.{of_stepped, step_reply};
ghost use Rattle.call_window.specs.Window.{of_windowed, window_reply};
ghost use Rattle.lists.specs.Lists.{reply_to, replies, ListOfCalls};
ghost use Rattle.call_lists.specs.Memory.{lies_in, part_of, call_of, put_back, calls_of, memory_after};
ghost use Rattle.call_lists.specs.Told.{Told};

pub use call_seek::Sought;
pub use call_step::Stepped;
pub use machine::Channel;
pub use refusals::Refusal;
pub use replies::Refused;

// ---- the calls of a list

// A part of the memory: so many bytes from `start` on. One that does not lie in the memory is the empty buffer.
#[derive(Clone, Copy, Debug, PartialEq, Eq)]
pub struct Part {
    pub start: u64,
    pub len: u64,
}

// A call on the channel that the call before it handed back. Any values.
#[derive(Clone, Copy, Debug, PartialEq, Eq)]
pub enum Call {
    Seek { place: u64 },
    Step,
    // The buffer is the part, and `at` counts from where the part begins.
    Window { count: u64, part: Part, at: u64 },
}

// ---- who listens

// Whoever is told the replies. The ghost member says which histories of replies, in order, it may have been told: one that keeps them all has one history, and
// one that keeps a count of them has each of that length.
pub trait Listener {
    ghost has_heard: { Self → List Reply → Type 0 };

    // A seek's answer.
    fn sought(&mut self, answer: Result<Sought, Refused>)
        ensures { Told has_heard self.old self.new (of_sought answer ∷ []) };

    // A step's answer.
    fn stepped(&mut self, answer: Result<Stepped, Refused>)
        ensures { Told has_heard self.old self.new (of_stepped answer ∷ []) };

    // A window's answer, its count and `at`, and its buffer as it stands right after the call.
    fn windowed(&mut self, count: u64, at: u64, buffer: &[u8], answer: Result<Channel, Refused>)
        ensures { Told has_heard self.old self.new (of_windowed count at buffer.now answer ∷ []) };
}

// ---- one call

impl Part {
    // Where a part begins and ends in a memory of so many bytes: an empty one at 0, where it does not lie in it. The sum is formed only where it does.
    fn bounds(self, bytes: usize) -> (usize, usize)
        ensures start { result.0 ≡ cond (lies_in bytes self) self.start 0 }
        ensures end { result.1 ≡ cond (lies_in bytes self) (self.start + self.len) 0 }
    {
        let bytes = bytes as u64;
        if bytes < self.start || bytes - self.start < self.len {
            return (0, 0);
        }
        (self.start as usize, (self.start + self.len) as usize)
    }
}

// A window on a part of the memory.
fn window_part<T: Listener>(
    ch: Channel,
    count: u64,
    part: Part,
    at: u64,
    memory: &mut [u8],
    listener: &mut T,
) -> Channel
    ensures back { result ≡ (window_reply ch count (part_of part memory.old) at).channel }
    ensures told { Told T.has_heard listener.old listener.new (window_reply ch count (part_of part memory.old) at ∷ []) }
    ensures memory { memory.new ≡ put_back (Call.Window count part at) (window_reply ch count (part_of part memory.old) at).buffers memory.old }
{
    let (start, end) = part.bounds(memory.len());
    let buffer = &mut memory[start..end];
    let answer = call_window::window(ch, count, buffer, at);
    listener.windowed(count, at, buffer, answer);
    match answer {
        Ok(next) => next,
        Err(refused) => refused.channel,
    }
}

// One call of a list, on any channel: an arm for each kind.
pub fn make<T: Listener>(ch: Channel, call: Call, memory: &mut [u8], listener: &mut T) -> Channel
    ensures back { result ≡ (reply_to ch (call_of memory.old call)).channel }
    ensures told { Told T.has_heard listener.old listener.new (reply_to ch (call_of memory.old call) ∷ []) }
    ensures memory { memory.new ≡ put_back call (reply_to ch (call_of memory.old call)).buffers memory.old }
{
    match call {
        Call::Seek { place } => {
            let answer = call_seek::seek(ch, place);
            listener.sought(answer);
            match answer {
                Ok(sought) => sought.channel,
                Err(refused) => refused.channel,
            }
        }
        Call::Step => {
            let answer = call_step::step(ch);
            listener.stepped(answer);
            match answer {
                Ok(stepped) => stepped.channel,
                Err(refused) => refused.channel,
            }
        }
        Call::Window { count, part, at } => window_part(ch, count, part, at, memory, listener),
    }
}

// ---- the whole list

// Opens a channel and makes the calls, in order. Where open refuses the signal or the PRN, no call is made. Else the channel that the last call handed back, or
// the opened one of no calls: a refused call among them is told to the listener, and ends nothing.
pub fn run<T: Listener>(
    signal: u64,
    prn: u64,
    calls: &[Call],
    memory: &mut [u8],
    listener: &mut T,
) -> Result<Channel, Refusal>
    ensures refused { IfErr result (λ r. open_reply signal prn ≡ refusal (number_of r)) }
    ensures no_call { OnErr result ((memory.new ≡ memory.old) × (listener.new ≡ listener.old)) }
    ensures opened { OnOk result (open_reply signal prn ≡ channel (opened signal prn)) }
    ensures list { IfOk result (λ back. (told : List Reply) × Told T.has_heard listener.old listener.new told
        × ListOfCalls signal prn back told (calls_of signal prn [] memory.old calls.now)) }
    ensures replies { OnOk result (Told T.has_heard listener.old listener.new
        (replies (opened signal prn) (calls_of signal prn [] memory.old calls.now))) }
    ensures memory { OnOk result (memory.new ≡ memory_after signal prn [] memory.old calls.now) }
{
    let mut ch = call_open::open(signal, prn)?;
    for call in calls {
        ch = make(ch, *call, memory, listener);
    }
    Ok(ch)
}

#[cfg(test)]
mod tests {
    use super::*;

    // It keeps how many replies it was told.
    #[derive(Drop)]
    struct Counter {
        told: u64,
    }

    impl Counter {
        fn count(&mut self)
            ensures { self.new.told ≡ min (self.old.told + 1) (2 ^ 64 - 1) }
        {
            self.told = self.told.saturating_add(1);
        }
    }

    impl Listener for Counter {
        ghost has_heard = { λ counter history. counter.told ≡ min (length history) (2 ^ 64 - 1) };

        fn sought(&mut self, _answer: Result<Sought, Refused>) {
            self.count();
        }

        fn stepped(&mut self, _answer: Result<Stepped, Refused>) {
            self.count();
        }

        fn windowed(
            &mut self,
            _count: u64,
            _at: u64,
            _buffer: &[u8],
            _answer: Result<Channel, Refused>,
        ) {
            self.count();
        }
    }

    // The first ten chips of C/A of PRN 1 are octal 1440 (IS-GPS-200 table 3-Ia): one by a step, five and four by windows on two parts of the memory.
    #[test]
    fn runs_a_list(rt: HostRuntime) {
        let first = Part { start: 0, len: 6 };
        let second = Part { start: 6, len: 4 };
        let nowhere = Part { start: 6, len: 5 };
        let calls = [
            Call::Step,
            Call::Window {
                count: 5,
                part: first,
                at: 1,
            },
            Call::Window {
                count: 1,
                part: nowhere,
                at: 0,
            },
            Call::Window {
                count: 4,
                part: second,
                at: 0,
            },
            Call::Seek { place: u64::MAX },
        ];
        let mut memory = [7u8; 10];
        let mut counter = Counter { told: 0 };
        let back = run(1, 1, &calls, &mut memory, &mut counter);
        assert!(rt; back.is_ok_and(|ch| ch.place == 10));
        assert_eq!(rt; memory, [7, 1, 0, 0, 1, 0, 0, 0, 0, 0]);
        assert_eq!(rt; counter.told, 5);
        assert!(rt; run(7, 1, &calls, &mut memory, &mut counter) == Err(Refusal::Signal));
        assert!(rt; run(1, 38, &calls, &mut memory, &mut counter) == Err(Refusal::Prn));
        assert_eq!(rt; counter.told, 5);
    }
}
