//! Worlds at their start.

ghost use Rattle.std.specs.Prelude.{◌≡◌, ◌⊎◌, ◌≤◌, ◌<◌, All, IfOk, IfErr, IsTrue, OnOk, Some, length, map, slice_get, true};
ghost use Rattle.om_interval.specs.declared.pid.TheConstants.{MAX_PROCESSES};
ghost use Rattle.om_process.specs.declared.start.StartFault.{StartFault};
ghost use Rattle.om_world.specs.World.{IsKnown, all_clean, program_of};
ghost use Rattle.om_world.specs.Holds.{Holds};
ghost use Rattle.om_manager.specs.Sound.{IsManager};
ghost use Rattle.om_world.specs.Started.{HaveFirst, IsLoadable, IsNew, IsRefusedAt, IsStarted};
ghost use Rattle.om_world.specs.steps.Starting.{AreSeated, IsStart};

use crate::remembered::Remembered;
use crate::since::Since;
use crate::world::World;
use om_interval::Pid;
use om_manager::Manager;
use om_member::Member;
use om_process::{Image, ProcCore, StartFault};
use om_stable::Stable;
use std::alloc::{AllocError, Global};
use std::snapshot::Snapshot;

fn copy_of(alloc: Global, image: &Image) -> Result<Image, AllocError>
    ensures { IfOk result (λ copy. program_of copy ≡ program_of image.now) }
{
    Ok(Image {
        bytes: Vec::from_slice(alloc, &image.bytes)?,
        size: image.size,
        ext: image.ext,
    })
}

fn copies_of(alloc: Global, images: &[Image]) -> Result<Vec<Image>, AllocError>
    ensures { IfOk result (λ copies. map program_of copies.items ≡ map program_of images.now) }
{
    let mut copies = Vec::with_capacity(alloc, images.len())?;
    for image in images {
        copies.push(copy_of(alloc, image)?)?;
    }
    Ok(copies)
}

// Starts the process at a place over its store.
fn start_at<S: Stable>(
    alloc: Global,
    images: &[Image],
    store: &mut S,
    p: usize,
) -> Result<ProcCore, StartFault>
    requires place { p < length images.now }
    requires few { length images.now ≤ MAX_PROCESSES }
    ensures { (image : _) × (slice_get images.now p ≡ Some image) × IsStart S.content S.failed S.is_clean S.IsSound
        (program_of image) p (length images.now) store.old store.new result }
{
    let image = &images[p];
    ProcCore::start(
        alloc,
        &image.bytes,
        image.size,
        image.ext,
        Pid::at(p),
        images.len(),
        store,
    )
}

// Starts each process.
fn start_all<S: Stable>(
    alloc: Global,
    images: &[Image],
    stores: Vec<S>,
) -> Result<Vec<Member<S>>, StartFault>
    requires few { length images.now ≤ MAX_PROCESSES }
    requires stores { length stores.items ≡ length images.now }
    ensures started { IfOk result (λ members. AreSeated S.content S.is_clean S.IsSound (map program_of images.now)
        (length images.now) (length images.now) stores.items members.items) }
    ensures refused { IfErr result (λ fault. (fault ≡ StartFault.Memory)
        ⊎ IsRefusedAt S.content S.failed S.is_clean S.IsSound (map program_of images.now) stores.items fault) }
{
    let mut members = Vec::new(alloc);
    for (p, store) in stores.into_iter().enumerate() {
        members.try_reserve(1)?;
        let mut store = store;
        let core = start_at(alloc, images, &mut store, p)?;
        members.push_reserved(Member::new(core, store));
    }
    Ok(members)
}

// Makes the manager of so many processes at their start.
pub(crate) fn new_manager(alloc: Global, n: usize) -> Result<Manager, AllocError>
    requires some { 1 ≤ n }
    requires few { n ≤ MAX_PROCESSES }
    ensures fresh { IfOk result (λ manager. IsNew n manager) }
    ensures sound { IfOk result (λ manager. IsManager manager) }
{
    let manager = Manager::new(alloc, n)?;
    // Reading the recovery state says what holds of every manager.
    let _ = manager.recovery();
    Ok(manager)
}

impl<S: Stable> World<S> {
    /// Starts a cluster: of each image a process over the store at its place, with its checkpoint 0 stored, in order.
    ///
    /// Refused, with the fault of the first process that is not started, with `BadSize` and then `ImageTooLong` as its
    /// machine is, then with what its store answers: `Present`, `Fault` or `Memory`; and with `Memory` wherever else
    /// memory runs out. The stores are dropped then, and those of the processes before may hold their checkpoints.
    ///
    /// What holds of a world (`Holds`) is told of one whose stores held nothing before the start, and are clean.
    pub fn start(alloc: Global, images: &[Image], stores: Vec<S>) -> Result<World<S>, StartFault>
        requires some { 1 ≤ length images.now }
        requires few { length images.now ≤ MAX_PROCESSES }
        requires stores { length stores.items ≡ length images.now }
        requires sound { All (λ store. IsTrue (S.is_clean store) → S.IsSound store) stores.items }
        ensures started { IfOk result (λ w. IsStarted (map program_of images.now) w) }
        ensures stored { IfOk result (λ w. all_clean w.health ≡ true → HaveFirst w) }
        ensures origins { IfOk result (λ w. w.origins ≡ map S.content stores.items) }
        ensures clean { IfOk result (λ w. all_clean w.health ≡ true → All (λ store. IsTrue (S.is_clean store)) stores.items) }
        ensures always { IfOk result (λ w. ((store : S) → IsTrue (S.is_clean store)) → all_clean w.health ≡ true) }
        ensures holds { IfOk result (λ w. IsKnown w → Holds w) }
        ensures loadable { OnOk result (All IsLoadable (map program_of images.now)) }
        ensures refused { IfErr result (λ fault. (fault ≡ StartFault.Memory)
            ⊎ IsRefusedAt S.content S.failed S.is_clean S.IsSound (map program_of images.now) stores.items fault) }
    {
        let n = images.len();
        let origins = Snapshot::of(&stores);
        let copies = copies_of(alloc, images)?;
        let manager = new_manager(alloc, n)?;
        let members = start_all(alloc, images, stores)?;
        Ok(World {
            images: copies,
            live: Remembered::none(),
            frames: Vec::new(alloc),
            members,
            manager,
            origins,
            since: Since::new(),
        })
    }
}
