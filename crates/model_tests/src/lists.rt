//! The sequential list, command by command.
use bounded_model::{Command, Order, PlainList, PutRefused, Reply, TakeRefused};

#[test]
fn a_queue_of_one(rt: HostRuntime) {
    let alloc = rt.alloc();
    let mut list = PlainList::new(alloc, 1, Order::Fifo).expect(&rt, "memory");
    let commands = vec![in alloc;
        Command::Put("x"),
        Command::Put("y"),
        Command::Take,
        Command::Take,
    ]
    .expect(&rt, "memory");
    let replies = list.run(alloc, commands).expect(&rt, "memory");
    let expected = [
        Reply::Put(Ok(0)),
        Reply::Put(Err(PutRefused::Full("y"))),
        Reply::Take(Ok(("x", 0))),
        Reply::Take(Err(TakeRefused::Empty)),
    ];
    assert_eq!(rt; replies.as_slice(), expected.as_slice());
    assert_eq!(rt; list.into_values().len(), 0);
}

#[test]
fn a_stack_numbers_puts_and_takes_together(rt: HostRuntime) {
    let alloc = rt.alloc();
    let mut list = PlainList::new(alloc, 3, Order::Lifo).expect(&rt, "memory");
    let commands = vec![in alloc;
        Command::Put("x"),
        Command::Put("y"),
        Command::Put("z"),
        Command::Look,
        Command::Take,
    ]
    .expect(&rt, "memory");
    let replies = list.run(alloc, commands).expect(&rt, "memory");
    let expected = [
        Reply::Put(Ok(0)),
        Reply::Put(Ok(1)),
        Reply::Put(Ok(2)),
        Reply::Look(false),
        Reply::Take(Ok(("z", 3))),
    ];
    assert_eq!(rt; replies.as_slice(), expected.as_slice());
    let mut left = list.into_values();
    assert_eq!(rt; left.pop_front(), Some("y"));
    assert_eq!(rt; left.pop_front(), Some("x"));
    assert_eq!(rt; left.pop_front(), None);
}

#[test]
fn a_closed_queue_is_drained(rt: HostRuntime) {
    let mut list = PlainList::new(rt.alloc(), 1, Order::Fifo).expect(&rt, "memory");
    assert_eq!(rt; list.put("x"), Ok(0));
    assert!(rt; list.close());
    assert_eq!(rt; list.put("y"), Err(PutRefused::Closed("y")));
    assert_eq!(rt; list.take(), Ok(("x", 0)));
    assert_eq!(rt; list.take(), Err(TakeRefused::Closed));
    assert_eq!(rt; list.put("z"), Err(PutRefused::Closed("z")));
    assert!(rt; !list.close());
    assert!(rt; list.is_empty());
}

#[test]
fn a_shut_list_takes_puts_alone(rt: HostRuntime) {
    let alloc = rt.alloc();
    let mut list = PlainList::new(alloc, 2, Order::Fifo).expect(&rt, "memory");
    let commands = vec![in alloc;
        Command::Put("x"),
        Command::Shut,
        Command::Put("y"),
        Command::Take,
        Command::Look,
        Command::Shut,
        Command::Put("z"),
        Command::Close,
        Command::Take,
        Command::Put("z"),
    ]
    .expect(&rt, "memory");
    let replies = list.run(alloc, commands).expect(&rt, "memory");
    let expected = [
        Reply::Put(Ok(0)),
        Reply::Shut(true),
        Reply::Put(Ok(1)),
        Reply::Take(Err(TakeRefused::Shut)),
        Reply::Look(false),
        Reply::Shut(false),
        Reply::Put(Err(PutRefused::Full("z"))),
        Reply::Close(true),
        Reply::Take(Err(TakeRefused::Shut)),
        Reply::Put(Err(PutRefused::Closed("z"))),
    ];
    assert_eq!(rt; replies.as_slice(), expected.as_slice());
    let mut left = list.into_values();
    assert_eq!(rt; left.pop_front(), Some("x"));
    assert_eq!(rt; left.pop_front(), Some("y"));
    assert_eq!(rt; left.pop_front(), None);
}

// This holds whichever allocation is refused. `rt try --test --fail-alloc N` refuses the list's
// room for N = 1, the commands' for N = 2 and the replies' for N = 3.
#[test]
fn a_run_without_room_changes_nothing(rt: HostRuntime) {
    let alloc = rt.alloc();
    let Ok(mut list) = PlainList::new(alloc, 1, Order::Fifo) else {
        return;
    };
    assert_eq!(rt; list.put("x"), Ok(0));
    let Ok(commands) = vec![in alloc; Command::Take, Command::Close, Command::Shut] else {
        return;
    };
    if list.run(alloc, commands).is_err() {
        assert_eq!(rt; list.put("y"), Err(PutRefused::Full("y")));
        assert_eq!(rt; list.take(), Ok(("x", 0)));
        assert_eq!(rt; list.put("y"), Ok(1));
    } else {
        assert_eq!(rt; list.take(), Err(TakeRefused::Shut));
        assert_eq!(rt; list.put("y"), Err(PutRefused::Closed("y")));
    }
}
