// Worked examples of the rules, each proved of the definitions that the contracts cite.
#![tactic(auto)]

ghost use Rattle.std.specs.Prelude.{◌≡◌, length};
ghost use Rattle.std.specs.List.{AllByRecursion};
ghost use Rattle.examples.specs.Examples.{Holds, examples};

// How many examples there are; every one of them holds.
pub fn example_count() -> usize
    ensures count { result ≡ length examples }
    ensures hold { AllByRecursion Holds examples }
{
    13
}
