//! Tests of the queue alone: how a queue is made, looks, counts and gauges, and its five calls begun
//! and stepped to their ends. `container_tests` tests what any container has. The program
//! (`tests/cases`) plays all other calls and their steps.
#![tactic(auto)]

#[cfg(test)]
mod begun;
#[cfg(test)]
mod counts;
#[cfg(test)]
mod gauging;
#[cfg(test)]
mod looking;
#[cfg(test)]
mod making;
