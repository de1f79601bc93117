//! Tests of the ring alone:
//! - what it may be made with, and how many passes it gives,
//! - that it goes round and wears out, what is left, and that each value is dropped once,
//! - each call as a row of a table: what it answers, and how many steps it makes,
//! - its calls by single steps: calls and threads that stop at a line while others go round, and
//!   schedules that look random, whose answers are those of a plain list,
//! - what the names of its steps tell.
//!
//! `container_tests` tests what any container has. `doing` and `plain` are read without the tests
//! too, since `specs/` names what they declare.
#![tactic(auto)]

#[cfg(test)]
mod begun;
#[cfg(test)]
mod calls;
#[cfg(test)]
mod crew;
#[cfg(test)]
mod dice;
mod doing;
#[cfg(test)]
mod drops;
#[cfg(test)]
mod judge;
#[cfg(test)]
mod leaving;
#[cfg(test)]
mod looked;
#[cfg(test)]
mod making;
#[cfg(test)]
mod named;
mod plain;
#[cfg(test)]
mod rounds;
#[cfg(test)]
mod rows;
#[cfg(test)]
mod schedules;
#[cfg(test)]
mod stopped;
#[cfg(test)]
mod threads;
#[cfg(test)]
mod ways;
