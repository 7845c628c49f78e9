// The signals and the PRNs that there are: types inside, numbers outside. Whoever holds one of these holds a number that there is, by a test or by a proof.
#![tactic(auto)]

ghost use Rattle.std.specs.Prelude.{◌≡◌, ◌≤◌};
ghost use Rattle.machine.specs.Signals.{week_of};
ghost use Rattle.signals.specs.Signals.{number_of, TakesSignal};

use refusals::Refusal;
pub use starts::Prn;

// A signal. One more is one more line here and one in `try_from`, and the compiler names each `match` on a `Signal` that lacks it.
#[derive(Clone, Copy, Debug, PartialEq, Eq)]
pub enum Signal {
    Ca = 1,
    P = 2,
    L2Cm = 3,
    L2Cl = 4,
    I5 = 5,
    Q5 = 6,
}

// Refusal 1, where no signal has the number.
impl TryFrom<u64> for Signal {
    type Error = Refusal;

    ghost try_from_gives = { TakesSignal };

    fn try_from(number: u64) -> Result<Signal, Refusal> {
        match number {
            1 => Ok(Signal::Ca),
            2 => Ok(Signal::P),
            3 => Ok(Signal::L2Cm),
            4 => Ok(Signal::L2Cl),
            5 => Ok(Signal::I5),
            6 => Ok(Signal::Q5),
            _ => Err(Refusal::Signal),
        }
    }
}

impl Signal {
    // The signal of a number from 1 to 6.
    pub fn of(number: u32) -> Signal
        requires first { 1 ≤ number }
        requires last { number ≤ 6 }
        ensures { number_of result ≡ number }
    {
        Signal::try_from(u64::from(number)).unwrap()
    }

    // Its number, as channels, C and the programs tell it. A method and no `From`: its name says which number.
    pub const fn number(self) -> u32
        ensures { result ≡ number_of self }
    {
        self as u32
    }

    // W, the places of its week.
    pub fn week(self) -> u64
        ensures { result ≡ week_of (number_of self) }
    {
        match self {
            Signal::Ca => machine::WEEK_CA,
            Signal::P => machine::WEEK_P,
            Signal::L2Cm => machine::WEEK_L2,
            Signal::L2Cl => machine::WEEK_L2,
            Signal::I5 => machine::WEEK_L5,
            Signal::Q5 => machine::WEEK_L5,
        }
    }
}
