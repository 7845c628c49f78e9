// Places and states that are printed, proved of the definitions: each law is promised by a function that does nothing.
#![tactic(auto)]

ghost use Rattle.known_places.specs.KnownPlaces.{KnownPlaces};
ghost use Rattle.known_places.specs.EndStates.{EndStates};

// The known places, the whole table.
#[tactic(auto, using(crate::proofs::KnownPlaces::known_places))]
pub fn known_places()
    ensures { KnownPlaces }
{}

// The states at the end of a cycle, of Tables 3-IIa and 3-VII of IS-GPS-200L.
#[tactic(auto, using(crate::proofs::EndStates::end_states))]
pub fn end_states()
    ensures { EndStates }
{}
