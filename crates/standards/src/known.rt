// Known places, in the order of the document that lists them. Where it names no PRN, PRN 1 is shown.
use crate::chips::first;
use crate::tables::p_at;
use layout::{Coder, Field};
use pages::text::{Digits, Shown};
use pages::{CA, I5, P};
use std::fmt;

#[derive(Clone, Copy, Debug, PartialEq, Eq)]
pub struct KnownPlaces;

impl fmt::Display for KnownPlaces {
    fn fmt<W: fmt::Write>(&self, f: &mut fmt::Formatter<W>) -> fmt::Result {
        writeln!(f, "Document 01, known places\n")?;
        write_first_chips(f)?;
        write_early(f)?;
        write_late(f)?;
        write_others(f)
    }
}

fn write_first_chips<W: fmt::Write>(f: &mut fmt::Formatter<W>) -> fmt::Result {
    let ca = |prn| first::<10>(CA, prn, Digits::Octal);
    let p = |prn| first::<12>(P, prn, Digits::Octal);
    writeln!(f, "First ten C/A chips, octal: PRN 1 {}", ca(1))?;
    writeln!(f, "First ten C/A chips, octal: PRN 34 {}", ca(34))?;
    writeln!(f, "First ten C/A chips, octal: PRN 37 {}", ca(37))?;
    writeln!(f, "First twelve of P: PRN 1 {}", p(1))?;
    writeln!(f, "First twelve of P: PRN 2 {}", p(2))?;
    writeln!(f, "First twelve of P: PRN 10 {}", p(10))
}

// P, to the end of its first epoch.
fn write_early<W: fmt::Write>(f: &mut fmt::Formatter<W>) -> fmt::Result {
    let x1a = p_at(4_091, Field::Register(Coder::X1a));
    writeln!(f, "P at 4,091: X1A {x1a}")?;
    let x1b = p_at(15_344_656, Field::Hold(Coder::X1b));
    let x2b = p_at(15_344_656, Field::Hold(Coder::X2b));
    writeln!(f, "P at 15,344,656: X1B {x1b}, X2B {x2b}")?;
    let x1b = p_at(15_344_999, Field::Hold(Coder::X1b));
    let x2a = p_at(15_344_999, Field::Hold(Coder::X2a));
    let leaps = p_at(15_344_999, Field::Leaps);
    writeln!(f, "P at 15,344,999: X1B {x1b}, X2A {x2a}, {leaps} leaps")?;
    let epoch = p_at(15_345_000, Field::Epoch);
    let x1b = p_at(15_345_000, Field::Phase(Coder::X1b));
    let x2a = p_at(15_345_000, Field::Hold(Coder::X2a));
    writeln!(
        f,
        "P at 15,345,000: epoch {epoch}, X1B phase {x1b}, X2A {x2a}"
    )
}

// P, at the end of the week.
fn write_late<W: fmt::Write>(f: &mut fmt::Formatter<W>) -> fmt::Result {
    let x1b = p_at(6_187_103_995_908, Field::Phase(Coder::X1b));
    let x2a = p_at(6_187_103_995_908, Field::Phase(Coder::X2a));
    let x2b = p_at(6_187_103_995_908, Field::Phase(Coder::X2b));
    writeln!(
        f,
        "P at 6,187,103,995,908: phases X1B {x1b}, X2A {x2a}, X2B {x2b}"
    )?;
    let x2a = p_at(6_187_103_998_930, Field::Hold(Coder::X2a));
    writeln!(f, "P at 6,187,103,998,930: X2A {x2a}")?;
    let x2b = p_at(6_187_103_999_034, Field::Hold(Coder::X2b));
    writeln!(f, "P at 6,187,103,999,034: X2B {x2b}")?;
    let stepped = Shown(states::step_from(6_187_103_999_999));
    writeln!(f, "From 6,187,103,999,999 a step gives {stepped}")
}

// I5 and C/A.
fn write_others<W: fmt::Write>(f: &mut fmt::Formatter<W>) -> fmt::Result {
    let i5 = first::<13>(I5, 1, Digits::Binary);
    writeln!(f, "I5 PRN 1, first 13 chips {i5}")?;
    let i5_at = |field| Shown(states::at_place(I5, 1, 8_190, field));
    let xa = i5_at(Field::Register(Coder::Xa));
    let cycles = i5_at(Field::Cycles(Coder::Xa));
    writeln!(f, "I5 at 8,190: XA {xa}, cycles {cycles}")?;
    let leaps = Shown(states::at_place(CA, 1, 1_022, Field::Leaps));
    writeln!(f, "C/A at 1,022: {leaps} leaps")?;
    let gap = Shown(states::ca_gap(0, 309_355_200_000));
    writeln!(f, "C/A gap from 0 to 309,355,200,000: {gap}")
}
