//! What holds of every state, as theorems over the definitions alone: each function stands for one.

ghost use Rattle.std.specs.Prelude.{◌≡◌, ◌≢◌, ◌↔◌, ◌∷◌, ◌+◌, ◌<◌, ◌≤◌, ◌^◌, All, List, drop, length, ℕ};
ghost use Rattle.om_isa.specs.declared.ext.Ext.{Ext};
ghost use Rattle.om_machine.specs.State.{State, IsMachine, IsMachineAfter, loaded, restored};
ghost use Rattle.om_isa.specs.Memory.{IsMemorySize};
ghost use Rattle.om_machine.specs.Step.{Steps, StepsOn};
ghost use Rattle.om_machine.specs.derived.NextStep.{next_of};
ghost use Rattle.om_machine.specs.Finishing.{TakesBody, finished_word, finished_who, finished_receive};
ghost use Rattle.om_machine.specs.declared.event.EnvCall.{EnvCall};
ghost use Rattle.om_machine.specs.declared.event.Event.{Event};
ghost use Rattle.om_machine.specs.declared.limits.TheConstants.{LAST_COUNT};

/// Proves that the machine of an image that fits into its memory is one at its start (`IsMachine`).
pub fn loading_makes_a_machine()
    ensures { (image : List ℕ) (size : ℕ) (ext : Ext) → IsMemorySize size → length image ≤ size → All (λ b. b < 2 ^ 8) image
        → IsMachine (loaded image size ext) }
{}

/// Proves that restoring a machine from its own parts gives that machine.
pub fn restoring_gives_the_machine()
    ensures parts { (m : State) (regs : List ℕ) → m.regs ≡ 0 ∷ regs → restored regs m.pc m.count m.memory m.ext ≡ m }
    ensures first { (m : State) → IsMachine m → m.regs ≡ 0 ∷ drop 1 m.regs }
{}

/// Proves that the relation of a step is a function.
pub fn step_is_a_function()
    ensures { (m : State) (e : Event) (n : State) → Steps m e n ↔ (next_of m ≡ (e, n)) }
{}

/// Proves that a step that went counts one, and any other leaves all as it was.
pub fn step_counts_or_stays()
    ensures counts { (m n : State) → Steps m Event.Went n → n.count ≡ m.count + 1 }
    ensures stays { (m : State) (e : Event) (n : State) → Steps m e n → e ≢ Event.Went → n ≡ m }
{}

/// Proves that a machine stands at a call only below the last count.
pub fn call_has_room()
    ensures { (m : State) (call : EnvCall) → (next_of m).0 ≡ Event.Call call → m.count < LAST_COUNT }
{}

/// Proves that so many steps that went lead to one state, count themselves, and go on as one run.
pub fn runs_go_on()
    ensures one { (k : ℕ) (m n o : State) → StepsOn k m n → StepsOn k m o → n ≡ o }
    ensures counted { (k : ℕ) (m n : State) → StepsOn k m n → n.count ≡ m.count + k }
    ensures joined { (j k : ℕ) (m n o : State) → StepsOn j m n → StepsOn k n o → StepsOn (j + k) m o }
{}

/// Proves that after a step a machine is one still, with a memory of the same size.
pub fn step_leaves_a_machine()
    ensures { (m : State) (e : Event) (n : State) → IsMachine m → Steps m e n → IsMachineAfter m n }
{}

/// Proves that after a call is finished a machine is one still, with a memory of the same size.
pub fn finishing_leaves_a_machine()
    ensures word { (m : State) (v : ℕ) → IsMachine m → v < 2 ^ 32 → IsMachineAfter m (finished_word v m) }
    ensures who { (m : State) (own n : ℕ) → IsMachine m → own < 2 ^ 32 → n < 2 ^ 32 → IsMachineAfter m (finished_who own n m) }
    ensures receive { (m : State) (from : ℕ) (body : List ℕ) → IsMachine m → TakesBody m (next_of m).0 → from < 2 ^ 32
        → All (λ b. b < 2 ^ 8) body → IsMachineAfter m (finished_receive from body m) }
{}
