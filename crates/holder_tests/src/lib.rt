// Examples of the holders, at sizes 0, 1 and full.
#![tactic(auto)]

#[cfg(test)]
mod posts;
#[cfg(test)]
mod shelves;
