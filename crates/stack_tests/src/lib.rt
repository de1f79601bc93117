//! Tests of the stack alone: ranges and folds in a crowd, ranges and folds in parts, the five calls
//! begun and stepped to their ends, how a stack is made, and how many passes it gives.
//! `container_tests` tests what any container has. The program (`tests/cases`) plays all other calls
//! and their steps.
#![tactic(auto)]

#[cfg(test)]
mod begun;
#[cfg(test)]
mod crowd;
#[cfg(test)]
mod fold_parts;
#[cfg(test)]
mod making;
#[cfg(test)]
mod parts;
