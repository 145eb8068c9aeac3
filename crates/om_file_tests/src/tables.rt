//! Stores in tables that nothing refuses.

ghost use Rattle.std.specs.Prelude.{◌≡◌, false};

use om_stable::Stable;
use om_tables::SqlStable;
use sqlite::{Alter, Connection};
use std::alloc::Global;
use std::process::Abort;

// How many checkpoints are pruned, one behind the other.
const MANY: u32 = 40;

// Puts a checkpoint and a receipt of each interval, and prunes up to each in turn: none is refused.
fn check_prunes<S: Alter + Drop>(rt: &impl Abort, alloc: Global, conn: Connection<S>)
    requires { conn.in_transaction ≡ false }
{
    let Ok(mut store) = SqlStable::create(alloc, conn) else {
        panic!(rt; "no store");
    };
    for x in 0..MANY {
        let put = store.put_checkpoint(alloc, x, b"state");
        let pruned = store.prune(alloc, x);
        let found = store.effective(alloc, u32::MAX);
        let newest = found
            .ok()
            .expect(rt, "a reading")
            .expect(rt, "a checkpoint");
        assert!(rt;
            put == Ok(()) && pruned == Ok(()) && newest.0 == x && store.failures() == 0,
            "{x}"
        );
    }
}

#[test]
fn no_prune_is_refused(rt: HostRuntime) {
    let conn = Connection::open_in_memory(rt.alloc()).expect(&rt, "memory");
    assert!(&rt; conn.is_autocommit());
    check_prunes(&rt, rt.alloc(), conn);
}
