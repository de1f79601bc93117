//! The calls of a queue step by step: the states of each, and where each step leads.

pub(crate) mod closing;
pub(crate) mod counting;
pub(crate) mod every;
pub(crate) mod gauging;
pub(crate) mod giving;
pub(crate) mod looking;
pub(crate) mod putting;
pub(crate) mod seeking;
pub(crate) mod shutting;
pub(crate) mod taking;
