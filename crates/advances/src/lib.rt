// How far the XB of a PRN is advanced from all ones, in chips, below 8,191: IS-GPS-705 Table 3-I, "XB Code Advance".
#![tactic(auto)]

ghost use Rattle.std.specs.Prelude.{◌≡◌, ◌<◌};
ghost use Rattle.starts.specs.Starts.{entry_of, advances_i5, advances_q5};

use starts::Prn;

mod tables;

// I5's for a PRN.
#[tactic(auto, unfolding(starts::specs::Starts::advances_i5))]
pub fn of_i5(prn: Prn) -> u32
    ensures value { result ≡ entry_of advances_i5 prn.number }
    ensures in_cycle { result < 8191 }
{
    tables::I5[prn.row()]
}

// Q5's for a PRN.
#[tactic(auto, unfolding(starts::specs::Starts::advances_q5))]
pub fn of_q5(prn: Prn) -> u32
    ensures value { result ≡ entry_of advances_q5 prn.number }
    ensures in_cycle { result < 8191 }
{
    tables::Q5[prn.row()]
}
