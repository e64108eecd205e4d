// Every run of calls keeps the ring's three laws: replicated, fresh, drains.
#![tactic(auto)]

ghost use Rattle.rules.specs.Laws.{EveryRunKeepsItsLaws};

// Any list of calls on an empty ring of any lawful settings, over a shelf and a post of any size.
pub fn every_run_keeps_its_laws()
    ensures { EveryRunKeepsItsLaws }
{}
