// Values: what a cell shows that is no chip.
use crate::text::Grouped;
use machine::Mode;
use signals::Signal;
use std::fmt;

#[derive(Clone, Copy, Debug, PartialEq, Eq)]
pub enum Value {
    Count(u64),
    // From one place to another, below 0 where it lies before it.
    Gap(i64),
    // The number of a chip in its cycle, at the right of four columns.
    Chip(u64),
    // The stages of a register of the signal with this number. Any number is shown: a `Signal` would ask more of callers.
    Register { signal: u64, stages: u32 },
    Mode(Mode),
    // Two stages of a register, each at the right of two columns.
    Stages { first: u32, second: u32 },
    // A code delay in chips, at the right of five columns.
    Delay(u64),
    // What a step gives: the opened channel, or another one.
    Opened,
    Another,
}

impl fmt::Display for Value {
    fn fmt<W: fmt::Write>(&self, f: &mut fmt::Formatter<W>) -> fmt::Result {
        match *self {
            Value::Count(n) => write!(f, "{}", Grouped(n)),
            Value::Gap(chips) => write_gap(f, chips),
            Value::Chip(n) => write!(f, "{n:>4}"),
            Value::Register { signal, stages } => write_register(f, signal, stages),
            Value::Mode(mode) => write_mode(f, mode),
            Value::Stages { first, second } => write!(f, "{first:>2} {second:>2}"),
            Value::Delay(chips) => write!(f, "{chips:>5}"),
            Value::Opened => write!(f, "the opened channel"),
            Value::Another => write!(f, "another channel"),
        }
    }
}

fn write_gap<W: fmt::Write>(f: &mut fmt::Formatter<W>, chips: i64) -> fmt::Result {
    if chips < 0 {
        write!(f, "-")?;
    }
    write!(f, "{}", Grouped(chips.unsigned_abs()))
}

// L2's 27 stages in octal, as the standards have them and as those of no signal are shown, and all others in binary.
fn write_register<W: fmt::Write>(
    f: &mut fmt::Formatter<W>,
    signal: u64,
    stages: u32,
) -> fmt::Result {
    match Signal::try_from(signal) {
        Ok(Signal::Ca) => write!(f, "{stages:010b}"),
        Ok(Signal::P) => write!(f, "{stages:012b}"),
        Ok(Signal::L2Cm | Signal::L2Cl) | Err(_) => write!(f, "{stages:09o}"),
        Ok(Signal::I5 | Signal::Q5) => write!(f, "{stages:013b}"),
    }
}

fn write_mode<W: fmt::Write>(f: &mut fmt::Formatter<W>, mode: Mode) -> fmt::Result {
    match mode {
        Mode::Running => write!(f, "running"),
        Mode::Held(chips) => write!(f, "held {}", Grouped(u64::from(chips))),
    }
}
