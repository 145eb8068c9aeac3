ghost use Rattle.std.specs.Prelude.{◌≡◌};

use super::*;
use std::marker::Brand;
use std::process::Abort;
use std::test::*;

#[test]
fn a_ticket_is_known_by_its_stub(rt: HostRuntime) -> Result<(), Fail> {
    known::<Brand, _>(&rt, Opened::new())
}

fn known<J: Series, R: Abort>(rt: &R, opened: Opened<u64>) -> Result<(), Fail>
    requires { opened.seen.book ≡ J.book }
{
    let mut book = opened.named::<J>();
    let (first, stub) = book.issue(&7).ok_or("a ticket")?;
    let (second, last) = book.issue(&7).ok_or("a ticket")?;
    assert!(rt; first.is_of(&stub) && second.is_of(&last));
    assert!(rt; !first.is_of(&last) && !second.is_of(&stub));
    Ok(())
}
