//! What the stats count for a worker that a relay does not have, and for more tries than a count
//! holds.

use file_relay::Tries;
use relay::Gate;
use std::test::Fail;

#[test]
fn tries_of_no_worker_and_beyond_a_count(rt: HostRuntime) -> Result<(), Fail> {
    let tries = Tries::new(rt.alloc(), 2, 1)?;
    for (who, call) in [(1, 3), (2, 4), (7, 0)] {
        tries.pass(who, call);
    }
    assert_eq!(rt; (tries.puts(), tries.takes()), (4, 5));
    tries.pass(0, u64::MAX);
    assert_eq!(rt; tries.puts(), u64::MAX);
    Ok(())
}
