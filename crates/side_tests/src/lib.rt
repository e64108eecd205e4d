// Holders over records and holders over bytes, side by side.
#![tactic(auto)]

#[cfg(test)]
mod side_by_side;
