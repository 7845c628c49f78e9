// A PRN by itself: its fact is stated in the terms of the file that it stands in, and `specs/Prns.antt`, which `lib.rt` uses, is about a PRN.

ghost use Rattle.std.specs.Prelude.{◌≡◌, ◌-◌, ◌<◌};
ghost use Rattle.starts.specs.Starts.{Listed};

// A PRN that the tables list.
#[derive(Clone, Copy, Debug, PartialEq, Eq)]
pub struct Prn {
    pub number: u32,
    ghost listed: { Listed 37 number },
}

impl Prn {
    // Its row in a table of all PRNs.
    pub fn row(self) -> usize
        ensures row { result ≡ self.number - 1 }
        ensures within { result < 37 }
    {
        self.number as usize - 1
    }
}
