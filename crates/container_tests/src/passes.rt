//! Passes for many.

use bounded_model::{Container, Leaving, MAX_PASSES};
use std::alloc::Global;
use std::process::Abort;
use std::sync::Wait;
use waiting::{SplitRefused, join_all, put_waiting, split_many};

/// Splits off the most passes that may be out, and no more: one more is refused. Once they are
/// joined a pass can be had again, whose value is left.
pub(crate) fn all_passes<C: Container<u64>, R: Abort + Wait>(
    rt: &R,
    alloc: Global,
    container: C,
    root: C::Root,
)
    requires { C.is_root container root }
{
    let mut root = root;
    let many = split_many(&container, alloc, &mut root, MAX_PASSES + 1);
    assert!(rt; matches!(many, Err(SplitRefused::NoPass)));
    let all = split_many(&container, alloc, &mut root, MAX_PASSES)
        .ok()
        .expect(rt, "passes");
    assert_eq!(rt; all.len(), MAX_PASSES as usize);
    assert!(rt; container.split(&mut root).is_none());
    join_all(&container, &mut root, all);
    let pass = container.split(&mut root).expect(rt, "a pass");
    let (pass, put) = put_waiting(&container, rt, pass, 4);
    assert_eq!(rt; put, Ok(0));
    container.join(&mut root, pass);
    let mut rest = container.finish(root);
    assert_eq!(rt; rest.next(), Some(4));
    assert_eq!(rt; rest.next(), None);
}
