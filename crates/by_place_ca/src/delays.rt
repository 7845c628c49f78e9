// By how many chips G2 is delayed for each PRN: IS-GPS-200, Table 3-Ia, "Code Delay Chips".

ghost use Rattle.std.specs.Prelude.{◌≡◌, ◌<◌};
ghost use Rattle.standard.specs.Tables.{of_prn, code_delays};

use starts::Prn;

// PRN 1 to 37, of which 34 and 37 have the same code.
const DELAYS: [u32; 37] = [
    5, 6, 7, 8, 17, 18, 139, 140, 141, 251, 252, 254, 255, 256, 257, 258, 469, 470, 471, 472, 473,
    474, 509, 512, 513, 514, 515, 516, 859, 860, 861, 862, 863, 950, 947, 948, 950,
];

// The delay for a PRN, in chips, less than a cycle of 1,023.
#[tactic(auto, unfolding(standard::specs::Tables::code_delays))]
pub fn of(prn: Prn) -> u32
    ensures value { result ≡ of_prn code_delays prn.number }
    ensures within { result < 1023 }
{
    DELAYS[prn.row()]
}
