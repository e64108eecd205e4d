// The ring of identifiers: what distances, places and owners are, and the laws about them.
#![tactic(auto)]

ghost use Rattle.circle.specs.Laws.{DistanceLawsHold, PlaceLawsHold, OwnerLawsHold, ListLawsHold};

// Distances on a ring.
#[tactic(auto, using(crate::proofs::Distances::distance_laws))]
fn distances_stand()
    ensures { DistanceLawsHold }
{}

// The places of an item's copies.
#[tactic(auto, using(crate::proofs::Places::place_laws))]
fn places_stand()
    ensures { PlaceLawsHold }
{}

// Who owns a place, among any set of members, before and after one comes or goes.
#[tactic(auto, using(crate::proofs::Owners::owner_laws))]
fn owners_stand()
    ensures { OwnerLawsHold }
{}

// The same for lists of members, by the functions that search them.
#[tactic(auto, using(crate::proofs::Searches::list_laws))]
fn searches_stand()
    ensures { ListLawsHold }
{}
