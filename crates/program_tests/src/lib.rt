//! Tests of the program's calls from above: what `read_words` makes of rows of words, what `replay`
//! and `relay_main` write, and why they refuse what they read. They also show what no clause says of
//! the counts of a relay's tries, and no process shows. The other scripts and relays are in
//! `tests/cases`, which `tests/program` plays.
#![tactic(auto)]

#[cfg(test)]
mod command_lines;
#[cfg(test)]
mod relays;
#[cfg(test)]
mod replays;
#[cfg(test)]
mod stats_tests;
