// The rules held to runs whose answers were worked out by a model of their text (scripts/model.py).
#![tactic(auto)]

ghost use Rattle.rule_checks.specs.Checks.{RulesAreAsWorkedOut};

pub fn rules_answer_as_worked_out()
    ensures { RulesAreAsWorkedOut }
{}
