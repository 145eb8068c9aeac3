//! The inboxes at the end of a run, when every worker has ended.

ghost use Rattle.std.specs.Prelude.{◌≡◌, length};
ghost use Rattle.om_threads.specs.steps.Settling.{ArePasses, AreSettled, HavePairs, IsRowSettled};

use om_board::{Inbox, PutPass, TakePass};
use std::sync::Wait;

// Has each receiver take in what one sender has put for it.
fn settle_row<R: Wait>(
    rt: &R,
    row: &[Inbox],
    from: usize,
    puts: Vec<PutPass>,
    takes: &mut Vec<Vec<TakePass>>,
)
    requires { HavePairs row.now from puts.items takes.old.items }
    ensures { IsRowSettled (length puts.items) from puts.items takes.old.items takes.new.items }
{
    for (to, put) in puts.into_iter().enumerate() {
        row[to].settle(rt, &mut takes[to][from], put);
    }
}

// Has each receiver take in what every sender has put for it. The passes to put stand by sender and there by receiver, those
// to take by receiver and there by sender.
pub(crate) fn settle_all<R: Wait>(
    rt: &R,
    inboxes: &[Vec<Inbox>],
    puts: Vec<Vec<PutPass>>,
    takes: &mut Vec<Vec<TakePass>>,
)
    requires { ArePasses (length inboxes.now) inboxes.now puts.items takes.old.items }
    ensures { AreSettled (length puts.items) puts.items takes.old.items takes.new.items }
{
    for (from, row) in puts.into_iter().enumerate() {
        settle_row(rt, &inboxes[from], from, row, takes);
    }
}
