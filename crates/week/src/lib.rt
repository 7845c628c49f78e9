// How each generator goes through the week: `specs/Standing.antt` says where it stands at a place, by division and remainder, and `proofs/` shows
// that the stepped machine stands there.
#![tactic(auto)]

ghost use Rattle.std.specs.Prelude.{◌≡◌, ◌+◌, ◌*◌, ◌<◌, ◌^◌, IsTrue, refl};
ghost use Rattle.machine.specs.Signals.{week_l5};
ghost use Rattle.week.specs.Week.{unheld, held, course_g, course_x1a, course_x1b, course_x2a, course_x2b, course_cm, course_cl, course_xa, course_xb};
ghost use Rattle.week.specs.declared.Course.{Course};
ghost use Rattle.week.specs.LawOfTheWeek.{EveryPlace, WeekPasses, LastStep};
ghost use Rattle.week.specs.Coursed.{fitting};

use generators::{Cl, Cm, Code};
use machine::Mode;
use registers::{G1, G2, X1A, X1B, X2A, X2B, XA, XB};

// How a generator goes through the week, in chips. Each number is a bound, and none stands for "never": an Option would be asked at each seek, and each
// formula stand twice.
#[derive(Clone, Copy, Debug, PartialEq, Eq)]
pub struct Course {
    // A whole cycle.
    pub cycle: u64,
    // The chips of a period in which it runs, before it is held: all of them where it is held in none.
    pub runs: u64,
    // From its start to its start again.
    pub period: u64,
    // The chips of the week in which its periods follow one another, before it is held up to the week's end: all of them where it isn't held there.
    pub stop: u64,
    // W.
    pub week: u64,
}

// A generator without its register.
#[derive(Clone, Copy, Debug, PartialEq, Eq)]
pub struct Standing {
    pub phase: u32,
    pub cycles: u32,
    pub mode: Mode,
}

// Never held: whole periods, up to the week's end.
#[inline(always)]
fn unheld(week: u64, cycle: u64, period: u64) -> Course
    ensures { result ≡ unheld week cycle period }
{
    Course {
        cycle,
        runs: period,
        period,
        stop: week,
        week,
    }
}

// Never held: all its cycles, time and again. The three plans are three formulas, each written once for every type.
#[inline(always)]
fn unheld_course<C: Code>(week: u64) -> Course
    requires { C.kind.highest < 2 ^ 12 }
    ensures { result ≡ unheld week (C.kind.last 0 + 1) ((C.kind.highest + 1) * (C.kind.last 0 + 1)) }
{
    let cycle = u64::from(C::last(0)) + 1;
    unheld(week, cycle, (u64::from(C::highest()) + 1) * cycle)
}

// Held at the last chip of its last cycle, with so many chips still to repeat.
#[inline(always)]
fn held_course<C: Code>(stop: u64, chips: u32) -> Course
    requires { C.kind.highest < 2 ^ 12 }
    ensures { result ≡ held stop (C.kind.last 0 + 1) (C.kind.highest + 1) chips }
{
    let cycle = u64::from(C::last(0)) + 1;
    let cycles = (u64::from(C::highest()) + 1) * cycle;
    Course {
        cycle,
        runs: cycles - 1,
        period: cycles + u64::from(chips),
        stop,
        week: machine::WEEK_P,
    }
}

// Of two cycles, the second cut short.
#[inline(always)]
fn cut_course<C: Code>() -> Course
    ensures { result ≡ unheld week_l5 (C.kind.last 0 + 1) ((C.kind.last 0 + 1) + (C.kind.last 1 + 1)) }
{
    let cycle = u64::from(C::last(0)) + 1;
    unheld(machine::WEEK_L5, cycle, cycle + (u64::from(C::last(1)) + 1))
}

// A generator that goes through the week by a course.
pub trait Coursed: Code {
    ghost course: { Course };

    // Its course. A function, for a constant can't be reckoned by a plan, which asks the code's own functions.
    fn course() -> Course
        ensures { result ≡ course };

    // The code's numbers hold it, and its table reaches every phase.
    ghost fits: { IsTrue (fitting Self.Stages.digits course) };
}

// The places where X2A and X2B reach the last state of their last cycle of the week.
const STOP_X2A: u64 = 6_187_103_998_930;

const STOP_X2B: u64 = 6_187_103_999_034;

impl Coursed for G1 {
    ghost course = { course_g };

    ghost fits = { refl };

    fn course() -> Course {
        unheld_course::<G1>(machine::WEEK_CA)
    }
}

impl Coursed for G2 {
    ghost course = { course_g };

    ghost fits = { refl };

    fn course() -> Course {
        unheld_course::<G2>(machine::WEEK_CA)
    }
}

impl Coursed for X1A {
    ghost course = { course_x1a };

    ghost fits = { refl };

    fn course() -> Course {
        unheld_course::<X1A>(machine::WEEK_P)
    }
}

impl Coursed for X1B {
    ghost course = { course_x1b };

    ghost fits = { refl };

    fn course() -> Course {
        held_course::<X1B>(machine::WEEK_P, generators::HOLD_X1B)
    }
}

impl Coursed for X2A {
    ghost course = { course_x2a };

    ghost fits = { refl };

    fn course() -> Course {
        held_course::<X2A>(STOP_X2A, generators::HOLD_X2A)
    }
}

impl Coursed for X2B {
    ghost course = { course_x2b };

    ghost fits = { refl };

    fn course() -> Course {
        held_course::<X2B>(STOP_X2B, generators::HOLD_X2B)
    }
}

impl Coursed for Cm {
    ghost course = { course_cm };

    ghost fits = { refl };

    fn course() -> Course {
        unheld_course::<Cm>(machine::WEEK_L2)
    }
}

impl Coursed for Cl {
    ghost course = { course_cl };

    ghost fits = { refl };

    fn course() -> Course {
        unheld_course::<Cl>(machine::WEEK_L2)
    }
}

impl Coursed for XA {
    ghost course = { course_xa };

    ghost fits = { refl };

    fn course() -> Course {
        cut_course::<XA>()
    }
}

impl Coursed for XB {
    ghost course = { course_xb };

    ghost fits = { refl };

    fn course() -> Course {
        cut_course::<XB>()
    }
}

// ---- a law, with no code

// The law of the week, for every signal and PRN: where each field of the stepped machine stands after any number of steps from the opened channel, and that a
// week of steps brings the opened channel back.
#[tactic(auto, using(crate::proofs::LawOfTheWeek::law_of_the_week, crate::proofs::LawOfTheWeek::week_passes, crate::proofs::LawOfTheWeek::last_step))]
pub fn law_of_the_week()
    ensures every_place { EveryPlace }
    ensures week_passes { WeekPasses }
    ensures last_step { LastStep }
{}
