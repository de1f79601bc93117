//! The calls of the first page: one pass puts and takes, and the values that are left come out at
//! the end.

use crate::fault::Fault;
use bounded_model::{Container, Leaving};
use std::sync::Wait;
use tagged_index::{Limits, MAX_TAG};
use treiber_stack::Stack;

pub fn show<R: AllocGlobal + Print + Wait>(rt: &R) -> Result<(), Fault> {
    let Some(limits) = Limits::of(64, MAX_TAG) else {
        unreachable!()
    };
    let (stack, mut root) = Stack::new(rt.alloc(), limits)?;
    let Some(pass) = stack.split(&mut root) else {
        unreachable!()
    };
    let (pass, first) = stack.put(rt, pass, 10u64);
    let (pass, second) = stack.put(rt, pass, 20);
    let (pass, taken) = stack.take(rt, pass);
    stack.join(&mut root, pass);
    let mut rest = stack.finish(root);
    println!(rt;
        "put {first:?} {second:?}, took {taken:?}, left {:?}",
        rest.next()
    )?;
    Ok(())
}
