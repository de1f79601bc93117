//! Tests of any container, run over each:
//! - what a value must go through as in the test suites of crossbeam-queue's `ArrayQueue` and of
//!   Boost.Lockfree, in our own words;
//! - how many steps each call makes;
//! - what becomes of the values of a call that is dropped between two steps;
//! - how many takes a consuming call tries, which a container made for it counts;
//! - the calls that wait: that they try again and wait for another thread, what a stop hands back,
//!   and passes for many.
//!
//! Ranges and folds are run over the stack.
#![tactic(auto)]

#[cfg(test)]
mod alone;
#[cfg(test)]
mod at_once;
#[cfg(test)]
mod consumed;
#[cfg(test)]
mod crowd;
#[cfg(test)]
mod drops;
#[cfg(test)]
mod each;
#[cfg(test)]
mod fills;
#[cfg(test)]
mod log;
#[cfg(test)]
mod made;
#[cfg(test)]
mod passes;
#[cfg(test)]
mod steps;
#[cfg(test)]
mod together;
#[cfg(test)]
mod tries;
#[cfg(test)]
mod waits;
