//! What holds of the formats alone.

ghost use Rattle.om_pages.specs.declared.pages.TheConstants.{PAGE};
ghost use Rattle.om_format.specs.declared.limits.TheConstants.{CHECKPOINT_KIND, CHECKPOINT_KIND_M, CHECKPOINT_VERSION_1, CHECKPOINT_VERSION_2, MAX_BODY, MAX_PROCESSES_OF_VERSION_1, RECEIPT_KIND, RECEIPT_VERSION};
ghost use Rattle.std.specs.Prelude.{◌≡◌, ◌<◌, ◌⊎◌, ℕ, List, Some, slice_index};
ghost use Rattle.om_format.specs.Checkpoints.{CheckpointRecord, SpellsCheckpoint, IsSpelled, checkpoint_fault};
ghost use Rattle.om_format.specs.Receipts.{ReceiptRecord, SpellsReceipt, receipt_fault};
ghost use Rattle.om_format.specs.declared.error.DecodeError.{DecodeError};
ghost use Rattle.om_format.specs.declared.version.Version.{Version};

/// Proves that no receipt has two spellings.
pub fn one_spelling_of_a_receipt()
    ensures { (r : ReceiptRecord) (a b : List ℕ) → SpellsReceipt r a → SpellsReceipt r b → a ≡ b }
{}

/// Proves that no checkpoint has two spellings in one version.
pub fn one_spelling_of_a_checkpoint()
    ensures { (version : Version) (r : CheckpointRecord) (a b : List ℕ)
        → SpellsCheckpoint version r a → SpellsCheckpoint version r b → a ≡ b }
{}

/// Proves that no bytes spell two receipts.
pub fn one_reading_of_a_receipt()
    ensures { (r s : ReceiptRecord) (bytes : List ℕ) → SpellsReceipt r bytes → SpellsReceipt s bytes → r ≡ s }
{}

/// Proves that no bytes spell two checkpoints, nor in two versions.
pub fn one_reading_of_a_checkpoint()
    ensures { (v w : Version) (r s : CheckpointRecord) (bytes : List ℕ)
        → SpellsCheckpoint v r bytes → SpellsCheckpoint w s bytes → (v ≡ w) × (r ≡ s) }
{}

/// Proves that bytes spell a receipt, or have a first fault.
pub fn receipt_or_fault()
    ensures { (bytes : List ℕ) → ((i : ℕ) → slice_index bytes i < 256)
        → ((r : ReceiptRecord) × SpellsReceipt r bytes) ⊎ ((e : DecodeError) × (receipt_fault bytes ≡ Some e)) }
{}

/// Proves that bytes spell a checkpoint, or have a first fault.
pub fn checkpoint_or_fault()
    ensures { (bytes : List ℕ) → ((i : ℕ) → slice_index bytes i < 256)
        → ((r : CheckpointRecord) × IsSpelled r bytes) ⊎ ((e : DecodeError) × (checkpoint_fault bytes ≡ Some e)) }
{}

/// Proves that the limits of bodies, pages and clusters, and the bytes of kinds and versions, are these.
pub fn limits()
    ensures body { MAX_BODY ≡ 256 }
    ensures receipt_kind { RECEIPT_KIND ≡ 82 }
    ensures receipt_version { RECEIPT_VERSION ≡ 1 }
    ensures checkpoint_kind { CHECKPOINT_KIND ≡ 67 }
    ensures checkpoint_kind_m { CHECKPOINT_KIND_M ≡ 77 }
    ensures version_1 { CHECKPOINT_VERSION_1 ≡ 1 }
    ensures version_2 { CHECKPOINT_VERSION_2 ≡ 2 }
    ensures processes_of_version_1 { MAX_PROCESSES_OF_VERSION_1 ≡ 8 }
    ensures page { PAGE ≡ 256 }
{}
