// Examples of the layouts: damaged bytes, and both holders over bytes at sizes 0, 1 and full.
#![tactic(auto)]

#[cfg(test)]
mod messages_in_bytes;
#[cfg(test)]
mod posts;
#[cfg(test)]
mod shelves;
