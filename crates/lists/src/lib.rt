// Every list of calls: what holds of it is said in `specs/Lists.antt` and proved in `proofs/EveryList.antt`. The code that runs a list is in `call_lists`.
#![tactic(auto)]

ghost use Rattle.lists.specs.Lists.{EveryList};

// From the channel that an accepted open gives, every list of seeks, steps and windows, refused ones included, leaves the place, every field and all chips that
// the stepped machine has, and the chips of IS-GPS-200 and IS-GPS-705; its refusals, its buffers and the leaps of its seeks are those of the rules.
pub fn every_list()
    ensures { EveryList }
{}
