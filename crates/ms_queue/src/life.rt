//! The life of a queue: how it is made, its passes, what is left at its end.

pub(crate) mod ending;
pub(crate) mod making;
pub(crate) mod passes;
pub(crate) mod queue;
pub(crate) mod rest;
