// The channel at place 0, by signal.
#![tactic(auto)]

ghost use Rattle.std.specs.Prelude.{◌≡◌, get_or};
ghost use Rattle.machine.specs.Machine.{at_zero, opened};
ghost use Rattle.signals.specs.Signals.{number_of};

use machine::Channel;
use registers::{G1, G2, X1A, X1B, X2A, X2B, XA};
use signals::{Prn, Signal};
use starts::FixedStart;

// A channel at place 0, given its delay line and the starts of its generators: 0 of one that the signal lacks.
fn at_zero(signal: Signal, prn: Prn, line: u64, starts: [u32; 4]) -> Channel
    ensures { result ≡ at_zero (number_of signal) prn.number line (get_or starts 0 0) (get_or starts 1 0) (get_or starts 2 0) (get_or starts 3 0) }
{
    let [first, second, third, fourth] = starts;
    Channel {
        signal: signal.number(),
        prn: prn.number,
        place: 0,
        epoch: 0,
        delay: line,
        first: generators::fresh_generator(first, 0),
        second: generators::fresh_generator(second, 0),
        third: generators::fresh_generator(third, 0),
        fourth: generators::fresh_generator(fourth, 0),
    }
}

// The channel of a signal and a PRN. An arm for each signal: the compiler names each `match` that lacks one.
#[tactic(auto, unfolding(machine::specs::Machine::opened))]
pub fn open(signal: Signal, prn: Prn) -> Channel
    ensures { result ≡ opened (number_of signal) prn.number }
{
    match signal {
        Signal::Ca => at_zero(signal, prn, 0, [G1::START, G2::START, 0, 0]),
        Signal::P => {
            let line = machine::LINE_LIMIT - 1;
            let starts = [X1A::START, X1B::START, X2A::START, X2B::START];
            at_zero(signal, prn, line, starts)
        }
        Signal::L2Cm => at_zero(signal, prn, 0, [starts::start_cm(prn), 0, 0, 0]),
        Signal::L2Cl => at_zero(signal, prn, 0, [0, starts::start_cl(prn), 0, 0]),
        Signal::I5 => at_zero(signal, prn, 0, [XA::START, starts::start_i5(prn), 0, 0]),
        Signal::Q5 => at_zero(signal, prn, 0, [XA::START, starts::start_q5(prn), 0, 0]),
    }
}
