//! The outputs of a process that a follower is told of.

ghost use Rattle.std.specs.VecDeque.{deque_len};
ghost use Rattle.std.specs.Prelude.{◌≤◌};

use om_manager::Output;
use std::collections::VecDeque;

/// What is kept of the released outputs of a process: how many were copied, and those of them that are still to be told.
#[derive(Drop)]
pub struct FollowedOutputs {
    pub copied: usize,
    pub fresh: VecDeque<Output>,
    ghost within: { deque_len fresh ≤ copied },
}
