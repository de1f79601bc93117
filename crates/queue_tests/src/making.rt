//! A new queue, whichever of its allocations is refused.

use bounded_model::Container;
use ms_queue::Queue;
use tagged_index::Limits;

#[test]
fn want_of_memory_refuses_a_queue(rt: HostRuntime) {
    let limits = Limits::of(40, 100).expect(&rt, "limits");
    let Ok((queue, root)) = Queue::<u32>::new(rt.alloc(), limits) else {
        return;
    };
    assert_eq!(rt; queue.capacity(), 40);
    drop(root);
    drop(queue);
}
