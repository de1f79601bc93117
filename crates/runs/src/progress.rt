//! Bounds on the steps of a running operation, as its caller sees it. A bound is a number of steps,
//! and a number more for each compare-and-swap by which another pass has succeeded meanwhile. There
//! are also calls that make one step more than the first number. If such a call has not ended then,
//! another pass's compare-and-swap has succeeded since it was begun. At the end, if no pass is out,
//! all passes together have made no more steps than their calls cost. A stack's loads that read a
//! refused range back come on top.

pub mod queue;
pub mod ring;
pub mod stack;
#[cfg(test)]
mod tests;
