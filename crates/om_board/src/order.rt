//! The rule of an inbox's channel, and its steps.

use crate::hand::Hand;
use atomic_table::{Join, Split};
use crossbeam_channel::protocol::{Lesson, Outcome, Protocol};
use om_format::Message;
use std::marker::{Brand, PhantomData};

/// The rule of an inbox's channel: what was put is what was taken and then what is queued, and all of it is of one pair.
pub struct InOrder;

impl Protocol<Message, Hand> for InOrder {
    ghost use Rattle.std.specs.Prelude.{true, []};
    ghost use Rattle.om_board.specs.steps.Order.{hand, Relayed};

    ghost holds = { Relayed };

    ghost first = { hand true true 0 0 [] [] };
}

/// The pair of an inbox, in proofs alone.
pub trait Pair {
    ghost use Rattle.std.specs.Prelude.{ℕ};

    ghost from: { ℕ };

    ghost to: { ℕ };
}

impl Pair for Brand {
    ghost from = { 0 };

    ghost to = { 0 };
}

/// The first pass is cut in two: one puts, the other takes, both for this pair.
pub struct Roles<J> {
    of: PhantomData<J>,
}

impl<J: Pair> Split<Hand> for Roles<J> {
    ghost use Rattle.std.specs.Prelude.{true, false, []};
    ghost use Rattle.om_board.specs.steps.Order.{hand};

    ghost left = { λ v. hand true false J.from J.to v.put [] };

    ghost right = { λ v. hand false true J.from J.to [] v.taken };
}

/// The pass that takes takes in the one that put.
pub struct Settles;

impl Join<Hand> for Settles {
    ghost use Rattle.std.specs.Prelude.{true, false, []};
    ghost use Rattle.om_board.specs.steps.Order.{hand};

    ghost both = { λ v w. hand true true v.from v.to w.put v.taken };

    ghost spent = { hand false false 0 0 [] [] };
}

/// A message is put. A full queue is the end of what was put.
pub struct PutStep;

impl Outcome<Message, Hand> for PutStep {
    ghost use Rattle.om_board.specs.steps.Order.{Puts};

    ghost then = { Puts };
}

impl Lesson<Message, Hand> for PutStep {
    ghost use Rattle.om_board.specs.Inboxes.{IsEndOf};

    ghost fact = { λ v items. IsEndOf v.put items };
}

/// A message is taken. Where the queue is empty, all that was put is taken, as far as that is known.
pub struct TakeStep;

impl Outcome<Message, Hand> for TakeStep {
    ghost use Rattle.om_board.specs.steps.Order.{Takes};

    ghost then = { Takes };
}

impl Lesson<Message, Hand> for TakeStep {
    ghost use Rattle.std.specs.Prelude.{◌≡◌, ◌++◌, true};

    ghost fact = { λ v items. v.puts ≡ true → v.put ≡ v.taken ++ items };
}

/// One pass knows both lists: what was put is what was taken, and then the queue.
pub struct Total;

impl Lesson<Message, Hand> for Total {
    ghost use Rattle.std.specs.Prelude.{◌≡◌, ◌++◌};

    ghost fact = { λ v items. v.put ≡ v.taken ++ items };
}
