//! A new stack: whichever of its allocations is refused, and how many passes it gives.

use bounded_model::Container;
use tagged_index::Limits;
use treiber_stack::Stack;

#[test]
fn no_pass_is_given_beyond_65535(rt: HostRuntime) {
    let limits = Limits::of(1, 16).expect(&rt, "limits");
    let (stack, mut root) = Stack::<char>::new(rt.alloc(), limits).expect(&rt, "memory");
    for _ in 0..65_535 {
        assert!(rt; stack.split(&mut root).is_some());
    }
    assert!(rt; stack.split(&mut root).is_none());
}

#[test]
fn want_of_memory_refuses_a_stack(rt: HostRuntime) {
    let limits = Limits::of(40, 100).expect(&rt, "limits");
    let Ok((stack, root)) = Stack::<u32>::new(rt.alloc(), limits) else {
        return;
    };
    assert_eq!(rt; stack.capacity(), 40);
    drop(root);
    drop(stack);
}
