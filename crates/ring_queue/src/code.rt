//! The calls of a ring step by step: the states of each, and where each step leads.

pub(crate) mod closing;
pub(crate) mod counting;
pub(crate) mod every;
pub(crate) mod gauging;
pub(crate) mod looking;
pub(crate) mod putting;
pub(crate) mod taking;
pub(crate) mod walk;
pub(crate) mod walking;
