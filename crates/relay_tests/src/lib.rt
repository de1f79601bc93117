//! Tests of what `relay` and `audit` promise and no run of the program shows. They use a gate that
//! holds workers, containers whose tags end early, and more workers than there are passes. They
//! check inputs and outcomes, and how much of a text went out.
#![tactic(auto)]

#[cfg(test)]
mod checks;
#[cfg(test)]
mod gates;
#[cfg(test)]
mod kinds;
#[cfg(test)]
mod made;
#[cfg(test)]
mod relays;
#[cfg(test)]
mod writing;
