//! The calls of a stack: what each does and promises, and the code that runs if no other pass is faster.

pub(crate) mod closing;
pub(crate) mod gauging;
pub(crate) mod looking;
pub(crate) mod putting;
pub(crate) mod taking;
