//! What a start of a manager comes to, as a theorem over the definitions alone.

ghost use Rattle.std.specs.Prelude.{ℕ, ◌<◌, List, map};
ghost use Rattle.om_look.specs.Rows.{AreRowsOf};
ghost use Rattle.om_manager.specs.Sound.{IsManager};
ghost use Rattle.om_manager.specs.State.{ManagerState};
ghost use Rattle.om_member.specs.Handed.{held_as};
ghost use Rattle.om_process.specs.declared.queues.Made.{Made};
ghost use Rattle.om_process.specs.declared.row.PendingRow.{PendingRow};
ghost use Rattle.om_stable.specs.Content.{Content};
ghost use Rattle.om_take_up.specs.Anew.{IsNew};
ghost use Rattle.om_take_up.specs.Orders.{Act, AreOfEach, ComeInTurn, StartsOver};
ghost use Rattle.om_take_up.specs.TakenUp.{RiseFrom};

/// Proves that a start in which each process reaches the manager by itself is a restart too: in whatever order the processes tell what
/// their stores held and then that they failed, the manager comes to be as a restart makes it over these stores.
pub fn any_order_is_a_restart()
    ensures { (n : ℕ) (held : ℕ → Content) (rows : ℕ → List PendingRow) (outputs : ℕ → List Made) (acts : List Act)
        (first last : ManagerState) → IsNew n first → IsManager first → ((p : ℕ) → p < n → AreRowsOf p n (held p) (rows p))
        → ((p : ℕ) → p < n → RiseFrom 0 (outputs p)) → AreOfEach n rows outputs acts → ComeInTurn first acts last
        → StartsOver n held (λ p. map held_as (outputs p)) last }
{}
