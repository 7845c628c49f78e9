// Why a call is refused: one enum for all calls, in the order of their numbers.
#![tactic(auto)]

ghost use Rattle.std.specs.Prelude.{◌≡◌};
ghost use Rattle.refusals.specs.Refusal.{number_of};

use thiserror::Error;

#[derive(Clone, Copy, Debug, PartialEq, Eq, Error)]
pub enum Refusal {
    #[error("signal not 1 to 6")]
    Signal = 1,
    #[error("PRN not 1 to 37")]
    Prn = 2,
    #[error("place not below the week's chips")]
    Place = 3,
    #[error("a field of the channel out of range")]
    Channel = 4,
    #[error("more than 65,536 chips")]
    Count = 5,
    #[error("no room in the buffer")]
    Room = 6,
    #[error("epoch not below 403,200")]
    Epoch = 7,
    #[error("chip not below the epoch's chips")]
    Chip = 8,
    #[error("not a line of four numbers")]
    Line = 9,
}

impl Refusal {
    // Its number, as C and the programs tell it. A method and no `From`: its name says which number.
    pub const fn number(self) -> u32
        ensures { result ≡ number_of self }
    {
        self as u32
    }
}
