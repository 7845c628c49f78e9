// One step of each generator, given that generator, its start and whether the week ends: ten types of one trait, and a step written once. One that is never
// held has no test of its mode. A start is handed in, since it may depend on the PRN, so that no table is read here.
#![tactic(auto)]

ghost use Rattle.std.specs.Prelude.{◌≡◌, ◌+◌, ◌<◌, ◌≤◌, ◌^◌, MatchOption, refl};
ghost use Rattle.machine.specs.declared.Mode.TheVariants.{Running};
ghost use Rattle.machine.specs.Generators.{Kind, up_to, fresh, restarted, moved, held_with, step_in, step_generator, held_at};
ghost use Rattle.machine.specs.Signals.{g1, g2, x1a, x1b, x2a, x2b, cm, cl, xa, xb};
ghost use Rattle.machine.specs.Ranged.{RangedKind};
ghost use Rattle.generators.specs.Codes.{Stands, arrival_of, NeverHeld, HeldBy};

use leap_tables::Leaping;
use machine::{Generator, Mode};
use registers::{G1, G2, L2, Register, X1A, X1B, X2A, X2B, XA, XB};

// ---- what a step does

// At its start, with so many cycles finished.
pub fn fresh_generator(start: u32, cycles: u32) -> Generator
    ensures { result ≡ fresh start cycles }
{
    Generator {
        register: start,
        phase: 0,
        cycles,
        mode: Mode::Running,
    }
}

// A count one up, which returns to 0 from its highest value.
pub fn up_to(highest: u32, n: u32) -> u32
    requires { n ≤ highest }
    ensures { result ≡ up_to highest n }
{
    if n == highest { 0 } else { n + 1 }
}

// One chip on in its cycle.
pub fn move_on(g: Generator, shifted: u32, arrival: Mode) -> Generator
    requires { g.phase + 1 < 2 ^ 32 }
    ensures { result ≡ moved shifted arrival g }
{
    Generator {
        register: shifted,
        phase: g.phase + 1,
        mode: arrival,
        ..g
    }
}

// Held, with so many chips still to repeat.
fn held_with(g: Generator, chips: u32) -> Generator
    ensures { result ≡ held_with chips g }
{
    Generator {
        mode: Mode::Held(chips),
        ..g
    }
}

// A cycle of a generator: where it begins, its last phase, and the highest number of cycles finished.
#[derive(Clone, Copy, Debug, PartialEq, Eq)]
struct Cycle {
    start: u32,
    last: u32,
    highest: u32,
}

impl Cycle {
    // At its end: the next one begins, and the cycles rise or return to 0.
    fn restart(self, g: Generator) -> Generator
        requires { g.cycles ≤ self.highest }
        ensures { result ≡ restarted self.start self.highest g }
    {
        fresh_generator(self.start, up_to(self.highest, g.cycles))
    }

    // The step of a generator that runs, given its register after a shift and its mode on arrival at the next phase.
    fn step_running(self, g: Generator, shifted: u32, arrival: Mode) -> Generator
        requires { Stands self g }
        ensures { result ≡ step_in Running shifted self.start self.last self.highest arrival g }
    {
        if g.phase == self.last {
            self.restart(g)
        } else {
            move_on(g, shifted, arrival)
        }
    }

    // The same of one that may be held.
    fn step_held(self, g: Generator, shifted: u32, arrival: Mode) -> Generator
        requires { Stands self g }
        ensures { result ≡ step_in g.mode shifted self.start self.last self.highest arrival g }
    {
        match g.mode {
            Mode::Running => self.step_running(g, shifted, arrival),
            Mode::Held(0) => fresh_generator(self.start, 0),
            Mode::Held(chips) => held_with(g, chips - 1),
        }
    }
}

// ---- holds

// Where a generator is held, and for how many chips: at a phase of a cycle, or at that phase of any cycle where the week ends, if it is held there.
#[derive(Clone, Copy, Debug, PartialEq, Eq)]
pub struct Hold {
    pub phase: u32,
    pub cycles: u32,
    pub chips: u32,
    pub week_end_chips: Option<u32>,
}

impl Hold {
    // The mode on arrival at a phase in a cycle, but at the week's end.
    fn usual(self, phase: u32, cycles: u32) -> Mode
        ensures { result ≡ held_at self.phase self.cycles self.chips phase cycles }
    {
        if (phase == self.phase) & (cycles == self.cycles) {
            Mode::Held(self.chips)
        } else {
            Mode::Running
        }
    }

    // The same, where the test says whether the week ends.
    fn arrival(self, week_end: bool, phase: u32, cycles: u32) -> Mode
        ensures { result ≡ arrival_of self week_end phase cycles }
    {
        match self.week_end_chips {
            None => self.usual(phase, cycles),
            Some(chips) => {
                if week_end {
                    if phase == self.phase {
                        Mode::Held(chips)
                    } else {
                        Mode::Running
                    }
                } else {
                    self.usual(phase, cycles)
                }
            }
        }
    }
}

// ---- a generator's constants

// But for its start, which the PRN may decide. `highest` and `hold` are functions with a clause: an associated constant would take a law in each `impl`.
pub trait Code {
    // Its register.
    type Stages: Leaping;

    // Its kind, whatever start stands in it.
    ghost kind: { Kind };

    // The last phase of a cycle, by the cycles finished.
    fn last(cycles: u32) -> u32
        ensures last_is { result ≡ kind.last cycles }
        ensures last_in { result < 2 ^ 20 };

    // The highest number of cycles finished.
    fn highest() -> u32
        ensures { result ≡ kind.highest };

    fn hold() -> Option<Hold>
        ensures { MatchOption result (NeverHeld kind) (λ hold. HeldBy kind hold) };

    ghost width_is: { kind.width ≡ Self.Stages.width };

    ghost shift_is: { kind.shift ≡ Self.Stages.shift };
}

// The step of a generator, which begins a cycle from `start`.
pub fn step<C: Code>(g: Generator, start: u32, week_end: bool) -> Generator
    requires { RangedKind (record C.kind { start = start }) g }
    ensures { result ≡ step_generator (record C.kind { start = start }) week_end g }
{
    let shifted = C::Stages::shift(g.register);
    let cycle = Cycle {
        start,
        last: C::last(g.cycles),
        highest: C::highest(),
    };
    match C::hold() {
        None => cycle.step_running(g, shifted, Mode::Running),
        Some(hold) => {
            let arrival = hold.arrival(week_end, g.phase + 1, g.cycles);
            cycle.step_held(g, shifted, arrival)
        }
    }
}

// The same step, apart from the loop that takes it, since it is seldom taken there.
#[cold]
#[inline(never)]
fn step_apart<C: Code>(g: Generator, start: u32, week_end: bool) -> Generator
    requires { RangedKind (record C.kind { start = start }) g }
    ensures { result ≡ step_generator (record C.kind { start = start }) week_end g }
{
    step::<C>(g, start, week_end)
}

// The same step, for a loop over steps of a generator that may be held: where it runs, and neither
// its hold nor its cycle's end is at hand, as at nearly each chip, it is shifted and no more.
pub fn step_in_a_run<C: Code>(g: Generator, start: u32, week_end: bool) -> Generator
    requires { RangedKind (record C.kind { start = start }) g }
    ensures { result ≡ step_generator (record C.kind { start = start }) week_end g }
{
    let last = C::last(g.cycles);
    let shifted = C::Stages::shift(g.register);
    match C::hold() {
        None => step::<C>(g, start, week_end),
        Some(hold) => {
            let clear = (g.phase < last) & (g.phase + 1 < hold.phase);
            if clear && g.mode == Mode::Running {
                move_on(g, shifted, Mode::Running)
            } else {
                step_apart::<C>(g, start, week_end)
            }
        }
    }
}

// ---- C/A

impl Code for G1 {
    type Stages = G1;

    ghost kind = { g1 };

    ghost width_is = { refl };

    ghost shift_is = { refl };

    fn last(_cycles: u32) -> u32 {
        machine::LAST_G
    }

    fn highest() -> u32 {
        0
    }

    fn hold() -> Option<Hold> {
        None
    }
}

impl Code for G2 {
    type Stages = G2;

    ghost kind = { g2 };

    ghost width_is = { refl };

    ghost shift_is = { refl };

    fn last(_cycles: u32) -> u32 {
        machine::LAST_G
    }

    fn highest() -> u32 {
        0
    }

    fn hold() -> Option<Hold> {
        None
    }
}

// ---- P

// The chips for which X1B, X2A and X2B stay at the last state of their last cycle, and X2A and X2B at that of their last cycle of the week.
pub const HOLD_X1B: u32 = 343;

pub const HOLD_X2A: u32 = 37;

pub const HOLD_X2B: u32 = 380;

pub const WEEK_END_HOLD_X2A: u32 = 1_069;

const WEEK_END_HOLD_X2B: u32 = 965;

impl Code for X1A {
    type Stages = X1A;

    ghost kind = { x1a };

    ghost width_is = { refl };

    ghost shift_is = { refl };

    fn last(_cycles: u32) -> u32 {
        machine::LAST_X1A
    }

    fn highest() -> u32 {
        machine::HIGHEST_X1A
    }

    fn hold() -> Option<Hold> {
        None
    }
}

impl Code for X1B {
    type Stages = X1B;

    ghost kind = { x1b };

    ghost width_is = { refl };

    ghost shift_is = { refl };

    fn last(_cycles: u32) -> u32 {
        machine::LAST_X1B
    }

    fn highest() -> u32 {
        machine::HIGHEST_X1B
    }

    fn hold() -> Option<Hold> {
        Some(Hold {
            phase: machine::LAST_X1B,
            cycles: machine::HIGHEST_X1B,
            chips: HOLD_X1B,
            week_end_chips: None,
        })
    }
}

impl Code for X2A {
    type Stages = X2A;

    ghost kind = { x2a };

    ghost width_is = { refl };

    ghost shift_is = { refl };

    fn last(_cycles: u32) -> u32 {
        machine::LAST_X2A
    }

    fn highest() -> u32 {
        machine::HIGHEST_X2A
    }

    fn hold() -> Option<Hold> {
        Some(Hold {
            phase: machine::LAST_X2A,
            cycles: machine::HIGHEST_X2A,
            chips: HOLD_X2A,
            week_end_chips: Some(WEEK_END_HOLD_X2A),
        })
    }
}

impl Code for X2B {
    type Stages = X2B;

    ghost kind = { x2b };

    ghost width_is = { refl };

    ghost shift_is = { refl };

    fn last(_cycles: u32) -> u32 {
        machine::LAST_X2B
    }

    fn highest() -> u32 {
        machine::HIGHEST_X2B
    }

    fn hold() -> Option<Hold> {
        Some(Hold {
            phase: machine::LAST_X2B,
            cycles: machine::HIGHEST_X2B,
            chips: HOLD_X2B,
            week_end_chips: Some(WEEK_END_HOLD_X2B),
        })
    }
}

// ---- L2 CM and L2 CL

#[derive(Clone, Copy, Debug, PartialEq, Eq)]
pub struct Cm;

impl Code for Cm {
    type Stages = L2;

    ghost kind = { cm 0 };

    ghost width_is = { refl };

    ghost shift_is = { refl };

    fn last(_cycles: u32) -> u32 {
        machine::LAST_CM
    }

    fn highest() -> u32 {
        0
    }

    fn hold() -> Option<Hold> {
        None
    }
}

#[derive(Clone, Copy, Debug, PartialEq, Eq)]
pub struct Cl;

impl Code for Cl {
    type Stages = L2;

    ghost kind = { cl 0 };

    ghost width_is = { refl };

    ghost shift_is = { refl };

    fn last(_cycles: u32) -> u32 {
        machine::LAST_CL
    }

    fn highest() -> u32 {
        0
    }

    fn hold() -> Option<Hold> {
        None
    }
}

// ---- I5 and Q5, of whose cycles the second is cut short

impl Code for XA {
    type Stages = XA;

    ghost kind = { xa };

    ghost width_is = { refl };

    ghost shift_is = { refl };

    fn last(cycles: u32) -> u32 {
        if cycles == 1 { 2_039 } else { 8_189 }
    }

    fn highest() -> u32 {
        machine::HIGHEST_XA
    }

    fn hold() -> Option<Hold> {
        None
    }
}

impl Code for XB {
    type Stages = XB;

    ghost kind = { xb 0 };

    ghost width_is = { refl };

    ghost shift_is = { refl };

    fn last(cycles: u32) -> u32 {
        if cycles == 1 { 2_038 } else { 8_190 }
    }

    fn highest() -> u32 {
        machine::HIGHEST_XB
    }

    fn hold() -> Option<Hold> {
        None
    }
}
