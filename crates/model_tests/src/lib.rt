//! Tests from above of what is on no table: words and limits, the sequential list, and waits after a
//! failed compare-and-swap. They are a crate of their own, so that those crates are not proved a
//! second time for them.
#![tactic(auto)]

#[cfg(test)]
mod lists;
#[cfg(test)]
mod waits;
#[cfg(test)]
mod words;
