// What Reading answers, in a file by itself, since the call has the same name but for the case of a letter.

// The epoch in which a place lies, and which chip of it.
#[derive(Clone, Copy, Debug, PartialEq, Eq)]
pub struct Reading {
    pub epoch: u64,
    pub chip: u64,
}
