//! The starts of one process, in blocks that copies share.

ghost use Rattle.std.specs.Prelude.{◌≡◌, ◌<◌, ◌≤◌, ◌^◌, [], ◌∷◌, ◌++◌, length, slice_get, IfOk, OnOk, OnErr};
ghost use Rattle.om_interval.specs.steps.Lines.{blocks_in};
ghost use Rattle.om_interval.specs.declared.shared_blocks.TheConstants.{BLOCK};

use std::alloc::{AllocError, Global};
use std::marker::Model;
use std::sync::Arc;

// How many starts a block has that is shared: a copy takes a count for each block, and copies fewer starts than one has.
const BLOCK: usize = 1024;

// The starts of one process. What is full is shared by all copies, so that a copy does not cost what was there long ago.
#[derive(Debug, Drop)]
pub(crate) struct SharedBlocks {
    shared: Vec<Arc<Vec<u64>>>,
    own: Vec<u64>,
}

impl Model for SharedBlocks {
    ghost use Rattle.std.specs.Prelude.{ℕ, List};
    ghost use Rattle.om_interval.specs.steps.Lines.{IsLine, blocks_in, joined};

    ghost Value = { List ℕ };

    ghost view = { λ l. joined (blocks_in l.shared.items) l.own.items };

    ghost invariant = { λ l. IsLine (blocks_in l.shared.items) l.own.items };
}

impl SharedBlocks {
    // Makes the line of one start, that of incarnation 0.
    pub(crate) fn new(alloc: Global) -> Result<SharedBlocks, AllocError>
        ensures { IfOk result (λ line. line ≡ 0 ∷ []) }
    {
        let mut own = Vec::with_capacity(alloc, 1)?;
        own.push_reserved(0);
        Ok(SharedBlocks {
            shared: Vec::new(alloc),
            own,
        })
    }

    pub(crate) fn len(&self) -> usize
        ensures starts { result ≡ length self.now }
        ensures numbered { result ≤ 2 ^ 32 }
    {
        self.shared.len() * BLOCK + self.own.len()
    }

    pub(crate) fn get(&self, place: usize) -> Option<u64>
        ensures { result ≡ slice_get self.now place }
    {
        match self.shared.get(place / BLOCK) {
            Some(block) => number_at(block, place % BLOCK),
            None => number_at(&self.own, place - self.shared.len() * BLOCK),
        }
    }

    pub(crate) fn copy(&self, alloc: Global) -> Result<SharedBlocks, AllocError>
        ensures { IfOk result (λ copy. copy ≡ self.now) }
    {
        let shared = blocks_of(alloc, &self.shared)?;
        let own = Vec::from_slice(alloc, &self.own)?;
        Ok(SharedBlocks { shared, own })
    }

    pub(crate) fn push(&mut self, alloc: Global, start: u64) -> Result<(), AllocError>
        requires { length self.old < 2 ^ 32 }
        ensures { OnOk result (self.new ≡ self.old ++ start ∷ []) }
    {
        if self.own.len() == BLOCK {
            share(alloc, &mut self.shared, &mut self.own)?;
        }
        self.own.push(start)?;
        Ok(())
    }
}

fn number_at(numbers: &[u64], place: usize) -> Option<u64>
    ensures { result ≡ slice_get numbers.now place }
{
    numbers.get(place).copied()
}

// Returns the same blocks, each with one owner more.
fn blocks_of(alloc: Global, blocks: &Vec<Arc<Vec<u64>>>) -> Result<Vec<Arc<Vec<u64>>>, AllocError>
    ensures { IfOk result (λ copy. blocks_in copy.items ≡ blocks_in blocks.now.items) }
{
    let mut copy = Vec::with_capacity(alloc, blocks.len())?;
    for block in blocks {
        copy.push_reserved(Arc::try_clone(block)?);
    }
    Ok(copy)
}

// Makes a block of what is not shared.
fn share(
    alloc: Global,
    shared: &mut Vec<Arc<Vec<u64>>>,
    own: &mut Vec<u64>,
) -> Result<(), AllocError>
    ensures shared { OnOk result (blocks_in shared.new.items ≡ blocks_in shared.old.items ++ own.old.items ∷ []) }
    ensures own { OnOk result (own.new.items ≡ []) }
    ensures same { OnErr result (blocks_in shared.new.items ≡ blocks_in shared.old.items) }
    ensures same_own { OnErr result (own.new.items ≡ own.old.items) }
{
    let block = Arc::new(alloc, Vec::from_slice(alloc, own)?)?;
    shared.push(block)?;
    own.clear();
    Ok(())
}
