// The tables, in the order of the standards' pages. A line of a table stands as its format, each value by the engine's calls.
ghost use Rattle.std.specs.Prelude.{◌≡◌};
ghost use Rattle.call_open.specs.Open.{open_reply};
ghost use Rattle.layout.specs.declared.Field.TheVariants.{Register};
ghost use Rattle.pages.specs.Cells.{of_shown};
ghost use Rattle.states.specs.States.{opened_cell, reach_reply, reached_cell};

use crate::chips::{first, first_256, last_1024, xb};
use crate::code_phases::{delay, stages};
use layout::{CYCLE_ENDS, Coder, Field, RESETS, SELECTED, Selected};
use machine::{LAST_CL, LAST_CM};
use pages::text::{Digits, Shown};
use pages::values::Value;
use pages::{CA, CL, CM, I5, P, Q5};
use std::fmt;

#[derive(Clone, Copy, Debug, PartialEq, Eq)]
pub struct Tables;

impl fmt::Display for Tables {
    fn fmt<W: fmt::Write>(&self, f: &mut fmt::Formatter<W>) -> fmt::Result {
        write_code_phases(f)?;
        write_l2_states(f)?;
        write_reset_timing(f)?;
        write_final_vectors(f)?;
        write_first_chips(f)?;
        write_last_chips(f)?;
        write_xb_states(f)
    }
}

// ---- tables with a row for each PRN from 1 to 37. A function for each table, and none like `write_selected` below, whose rows differ in the
// last cell alone: here a row has two cells or four, of types of their own.

fn write_code_phases<W: fmt::Write>(f: &mut fmt::Formatter<W>) -> fmt::Result {
    writeln!(
        f,
        "IS-GPS-200 Table 3-Ia. Code Phase Assignments: stages of G2, code delay of C/A (chips), first 10 chips of C/A, first 12 chips of P (octal)\n\n\
         PRN  G2     Delay  C/A   P"
    )?;
    for prn in 1..=37u64 {
        let g2 = stages(prn);
        let late = delay(prn);
        let ca = first::<10>(CA, prn, Digits::Octal);
        let p = first::<12>(P, prn, Digits::Octal);
        writeln!(f, "{prn:>3}  {g2}  {late}  {ca}  {p}")?;
    }
    writeln!(f)
}

// A register of L2 as a channel is opened. Here and below a signal is its number, as `states` takes it. Apart from the next, which has a place.
fn initial(signal: u64, prn: u64, coder: Coder) -> Shown<Value>
    ensures { of_shown result.0 ≡ opened_cell (open_reply signal prn) (Register coder) }
{
    Shown(states::at_open(signal, prn, Field::Register(coder)))
}

// The same at a place.
fn register(signal: u64, prn: u64, place: u64, coder: Coder) -> Shown<Value>
    ensures { of_shown result.0 ≡ reached_cell (reach_reply signal prn place) (Register coder) }
{
    Shown(states::at_place(signal, prn, place, Field::Register(coder)))
}

// The end state is that of the last chip of the first period.
fn write_l2_states<W: fmt::Write>(f: &mut fmt::Formatter<W>) -> fmt::Result {
    writeln!(
        f,
        "IS-GPS-200 Table 3-IIa. Code Phase Assignments: initial and end shift register state (octal)\n\n\
         \x20    Initial               End\n\
         PRN  L2 CM      L2 CL      L2 CM      L2 CL"
    )?;
    for prn in 1..=37u64 {
        let cm = initial(CM, prn, Coder::L2Cm);
        let cl = initial(CL, prn, Coder::L2Cl);
        let cm_end = register(CM, prn, u64::from(LAST_CM), Coder::L2Cm);
        let cl_end = register(CL, prn, u64::from(LAST_CL), Coder::L2Cl);
        writeln!(f, "{prn:>3}  {cm}  {cl}  {cm_end}  {cl_end}")?;
    }
    writeln!(f)
}

fn write_xb_states<W: fmt::Write>(f: &mut fmt::Formatter<W>) -> fmt::Result {
    writeln!(
        f,
        "IS-GPS-705 Table 3-I. Code Phase Assignments: initial XB code state\n\n\
         PRN  I5             Q5"
    )?;
    for prn in 1..=37u64 {
        let i5 = xb(I5, prn);
        let q5 = xb(Q5, prn);
        writeln!(f, "{prn:>3}  {i5}  {q5}")?;
    }
    writeln!(f)
}

// ---- P's generators, of PRN 1. A function for each table, as above.

// A field of P at a place.
pub(crate) fn p_at(place: u64, field: Field) -> Shown<Value>
    ensures { of_shown result.0 ≡ reached_cell (reach_reply 2 1 place) field }
{
    Shown(states::at_place(P, 1, place, field))
}

fn write_reset_timing<W: fmt::Write>(f: &mut fmt::Formatter<W>) -> fmt::Result {
    writeln!(
        f,
        "IS-GPS-200 Table 3-VI. P-Code Reset Timing (last 400 microseconds of 7-day period): code chip\n\n\
         \x20X1A   X1B   X2A   X2B"
    )?;
    for place in RESETS {
        let x1a = p_at(place, Field::Chip(Coder::X1a));
        let x1b = p_at(place, Field::Chip(Coder::X1b));
        let x2a = p_at(place, Field::Chip(Coder::X2a));
        let x2b = p_at(place, Field::Chip(Coder::X2b));
        writeln!(f, "{x1a}  {x1b}  {x2a}  {x2b}")?;
    }
    writeln!(f)
}

fn write_final_vectors<W: fmt::Write>(f: &mut fmt::Formatter<W>) -> fmt::Result {
    writeln!(
        f,
        "IS-GPS-200 Table 3-VII. Final Code Vector States\n\n\
         Code  Chip  Vector State  1st Chip following Epoch"
    )?;
    for (coder, place, next) in CYCLE_ENDS {
        let chip = p_at(place, Field::Chip(coder));
        let vector = p_at(place, Field::Register(coder));
        let following = p_at(next, Field::Register(coder));
        writeln!(f, "{coder:<4}  {chip}  {vector}  {following}")?;
    }
    writeln!(f)
}

// ---- P's chips at the ends of the week, of selected PRNs

// A row has the PRN, the P-code that it has, and chips of that one.
fn write_selected<W: fmt::Write, T: fmt::Display + Drop, F: Fn(Selected) -> T>(
    f: &mut fmt::Formatter<W>,
    title: &str,
    chips_of: F,
) -> fmt::Result
    requires { F.IsAlwaysCallable chips_of }
{
    writeln!(f, "{title}")?;
    for prn in SELECTED {
        let selected = Selected::from(prn);
        let chips = chips_of(selected);
        writeln!(f, "{prn:03}  {selected:<10}  {chips}")?;
    }
    writeln!(f)
}

fn write_first_chips<W: fmt::Write>(f: &mut fmt::Formatter<W>) -> fmt::Result {
    write_selected(
        f,
        "IS-GPS-200 Table 6-III. First 256 P-code Chips of the Week for Selected Code Phase Assignments\n\n\
         PRN  Advance     P-code, left-to-right from beginning of GPS week (hexadecimal)",
        |selected| first_256(selected.prn, selected.first()),
    )
}

fn write_last_chips<W: fmt::Write>(f: &mut fmt::Formatter<W>) -> fmt::Result {
    write_selected(
        f,
        "IS-GPS-200 Table 6-IV. Last 1024 P-code Chips of the Week for Selected Code Phase Assignments\n\n\
         PRN  Advance     P-code, left-to-right to last chip of GPS week (hexadecimal)",
        |selected| last_1024(selected.prn, selected.last_1024()),
    )
}
