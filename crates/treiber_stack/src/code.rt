//! The calls of a stack step by step: the states of each, and where each step leads.

pub(crate) mod begun;
pub(crate) mod closing;
pub(crate) mod every;
pub(crate) mod giving;
pub(crate) mod looking;
pub(crate) mod putting;
pub(crate) mod refusing;
pub(crate) mod taking;
