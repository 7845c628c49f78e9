// The delay line of P, filled by single steps of X2A and X2B, and the count of these steps.

ghost use Rattle.std.specs.Prelude.{◌≡◌, ◌<◌, ◌^◌};
ghost use Rattle.machine.specs.Ranged.{RangedKind};
ghost use Rattle.machine.specs.Signals.{x2a, x2b};
ghost use Rattle.seeks.specs.Inner.{stepped};

use machine::Generator;
use registers::{X2A, X2B};
use starts::FixedStart;
use std::marker::Model;

// How many single steps were taken. The number is private, so that outside this file it can be begun at none, carried on and read, and nothing else: it rises
// by one in `Fill::step`, which takes one, and nowhere else.
#[derive(Clone, Copy, Debug, PartialEq, Eq)]
pub struct SingleSteps {
    taken: u32,
}

impl Model for SingleSteps {
    ghost use Rattle.std.specs.Prelude.{ℕ};

    ghost Value = { ℕ };

    ghost view = { λ s. s.taken };

    ghost inverse = { λ n. record { taken = n } };
}

impl SingleSteps {
    // None yet.
    pub fn none() -> SingleSteps
        ensures { result ≡ 0 }
    {
        SingleSteps { taken: 0 }
    }

    // How many they are.
    pub fn number(self) -> u32
        ensures { result ≡ self }
    {
        self.taken
    }
}

// X2A, X2B and the delay line, and the single steps that brought them where they are.
#[derive(Clone, Copy, Debug, PartialEq, Eq)]
pub struct Fill {
    pub third: Generator,
    pub fourth: Generator,
    pub delay: u64,
    pub steps: SingleSteps,
}

impl Fill {
    // One single step of X2A and of X2B: the line takes in the X2 chip that they gave before it. It is the one function of this crate that steps a generator.
    // Inlined, so that the loop of `fill_line` keeps to registers.
    #[inline(always)]
    pub(crate) fn step(self, week_end: bool) -> Fill
        requires third_in { RangedKind x2a self.third }
        requires fourth_in { RangedKind x2b self.fourth }
        requires delay_in { self.delay < 2 ^ 37 }
        requires steps_in { self.steps < 2 ^ 16 }
        ensures { result ≡ stepped week_end self }
    {
        let delay = steps::next_line(self.third.register, self.fourth.register, self.delay);
        let third = generators::step_in_a_run::<X2A>(self.third, X2A::START, week_end);
        let fourth = generators::step_in_a_run::<X2B>(self.fourth, X2B::START, week_end);
        let taken = self.steps.taken + 1;
        Fill {
            third,
            fourth,
            delay,
            steps: SingleSteps { taken },
        }
    }
}
