//! The life of a ring: how it is made, its passes, what is left at its end.

pub(crate) mod ending;
pub(crate) mod limits;
pub(crate) mod making;
pub(crate) mod passes;
pub(crate) mod rest;
pub(crate) mod ring;
pub(crate) mod spare;
