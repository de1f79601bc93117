//! Tests of the list steps alone, over a list of three cells that is no container. They check what
//! a take and a failed compare-and-swap leave, and that the tag of a word that comes back (ABA)
//! tells it apart.
#![tactic(auto)]

#[cfg(test)]
mod cells;
#[cfg(test)]
mod taking;
