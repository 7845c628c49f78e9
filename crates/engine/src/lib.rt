// The calls, under one name: open, seek, step and window, and why each may be refused. Each has a crate of its own, with its definition, its promise and the
// wrong answers that the promise rules out.
#![tactic(auto)]

pub use call_open::open;
pub use call_seek::{Sought, seek};
pub use call_step::{Stepped, step};
pub use call_window::window;
pub use refusals::Refusal;
pub use replies::Refused;
