//! Looks at a queue.

use bounded_model::{Container, Stepwise};
use ms_queue::Queue;
use tagged_index::{Limits, MAX_TAG};

// A look sees at once what was put.
#[test]
fn a_look_finds_what_was_put(rt: HostRuntime) {
    let limits = Limits::of(1, MAX_TAG).expect(&rt, "limits");
    let (queue, mut root) = Queue::<u32>::new(rt.alloc(), limits).expect(&rt, "memory");
    let pass = queue.split(&mut root).expect(&rt, "a pass");
    let (pass, is_empty) = queue.look(&rt, pass);
    assert!(rt; is_empty);
    let (pass, put) = queue.put(&rt, pass, 7);
    assert!(rt; put.is_ok());
    let (_, is_empty) = queue.look(&rt, pass);
    assert!(rt; !is_empty);
}
