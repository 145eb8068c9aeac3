//! A walk through the runs that there can be: at each step a delivery is taken, or declined for now.

ghost use Rattle.std.specs.Prelude.{◌≡◌, ◌++◌, ◌∷◌, [], ℕ, List, All, IfOk, IsTrue, OnErr, OnOk, false};
ghost use Rattle.om_process.specs.Process.{Program};
ghost use Rattle.om_check.specs.declared.walk.Choice.{Choice};
ghost use Rattle.om_check.specs.steps.Walks.{IsExcluded, KeepsOther, LeavesNone, TurnsTo, declining, taking};

use crate::exploring::Delivery;
use om_interval::Pid;
use std::alloc::{AllocError, Global};
use std::marker::Model;

/// A delivery that was possible, and whether it was taken.
#[derive(Clone, Copy, Debug, PartialEq, Eq)]
pub struct Choice {
    pub delivery: Delivery,
    pub taken: bool,
}

// A walk, and what it has declined and its receiver has received nothing since.
#[derive(Drop)]
pub(crate) struct Walk {
    alloc: Global,
    choices: Vec<Choice>,
    excluded: Vec<Delivery>,
}

impl Model for Walk {
    ghost use Rattle.std.specs.Prelude.{All, List};
    ghost use Rattle.om_check.specs.declared.walk.Choice.{Choice};
    ghost use Rattle.om_check.specs.steps.Walks.{IsExcluded};

    ghost Value = { List Choice };

    ghost view = { λ w. w.choices.items };

    ghost invariant = { λ w. All (IsExcluded w.choices.items) w.excluded.items };
}

impl Walk {
    pub(crate) fn new(alloc: Global) -> Walk
        ensures { result ≡ [] }
    {
        Walk {
            alloc,
            choices: Vec::new(alloc),
            excluded: Vec::new(alloc),
        }
    }

    // Returns whether the delivery is to be passed over for now.
    pub(crate) fn is_excluded(&self, from: Pid, to: Pid) -> bool
        ensures { IsTrue result → IsExcluded self.now (record { from = from; to = to }) }
    {
        for other in &self.excluded {
            if is_of(other, from, to) {
                return true;
            }
        }
        false
    }

    // Takes a delivery.
    pub(crate) fn take(&mut self, from: Pid, to: Pid) -> Result<(), AllocError>
        ensures taken { OnOk result (self.new ≡ self.old ++ taking (record { from = from; to = to }) ∷ []) }
        ensures refused { OnErr result (self.new ≡ self.old) }
    {
        let kept = elsewhere(self.alloc, &self.excluded, to)?;
        self.choices.try_reserve(1)?;
        self.excluded = kept;
        self.choices.push_reserved(Choice {
            delivery: Delivery { from, to },
            taken: true,
        });
        Ok(())
    }

    // Declines a delivery.
    pub(crate) fn decline(&mut self, from: Pid, to: Pid) -> Result<(), AllocError>
        ensures declined { OnOk result (self.new ≡ self.old ++ declining (record { from = from; to = to }) ∷ []) }
        ensures refused { OnErr result (self.new ≡ self.old) }
    {
        self.choices.try_reserve(1)?;
        self.excluded.try_reserve(1)?;
        self.choices.push_reserved(Choice {
            delivery: Delivery { from, to },
            taken: false,
        });
        self.excluded.push_reserved(Delivery { from, to });
        Ok(())
    }

    // Gives back the choices of the walk.
    pub(crate) fn into_choices(self) -> Vec<Choice>
        ensures { result.items ≡ self }
    {
        self.choices
    }
}

// Returns whether a delivery is of these two.
fn is_of(delivery: &Delivery, from: Pid, to: Pid) -> bool
    ensures { IsTrue result → delivery.now ≡ record { from = from; to = to } }
{
    delivery.from == from && delivery.to == to
}

// Returns those of the deliveries that are to others.
fn elsewhere(alloc: Global, excluded: &[Delivery], to: Pid) -> Result<Vec<Delivery>, AllocError>
    ensures { IfOk result (λ kept. (walk : List Choice) (from : ℕ) → All (IsExcluded walk) excluded.now
        → All (IsExcluded (walk ++ taking (record { from = from; to = to }) ∷ [])) kept.items) }
{
    let mut kept = Vec::new(alloc);
    for delivery in excluded {
        keep_other(&mut kept, delivery, to)?;
    }
    Ok(kept)
}

// Keeps a delivery that is to another.
fn keep_other(kept: &mut Vec<Delivery>, delivery: &Delivery, to: Pid) -> Result<(), AllocError>
    ensures { OnOk result (KeepsOther kept.old.items delivery.now to kept.new.items) }
{
    if delivery.to == to {
        return Ok(());
    }
    push_delivery(kept, delivery.from, delivery.to)
}

fn push_delivery(kept: &mut Vec<Delivery>, from: Pid, to: Pid) -> Result<(), AllocError>
    ensures { OnOk result (kept.new.items ≡ kept.old.items ++ (record { from = from; to = to }) ∷ []) }
{
    kept.try_reserve(1)?;
    kept.push_reserved(Delivery { from, to });
    Ok(())
}

// Turns back to the last delivery that was taken, and declines it. Says whether there was one.
pub(crate) fn turn_back(choices: &mut Vec<Choice>) -> bool
    ensures turned { IsTrue result → (programs : List Program) → TurnsTo programs choices.old.items choices.new.items }
    ensures none { result ≡ false → (programs : List Program) → LeavesNone programs choices.old.items }
{
    for _ in 0..choices.len() {
        let Some(choice) = choices.pop() else {
            return false;
        };
        if choice.taken {
            let Delivery { from, to } = choice.delivery;
            choices.push_reserved(Choice {
                delivery: Delivery { from, to },
                taken: false,
            });
            return true;
        }
    }
    false
}
