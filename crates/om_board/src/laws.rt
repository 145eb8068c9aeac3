//! What holds of posted fronts: each function stands for a theorem over the definitions alone.
ghost use Rattle.std.specs.Prelude.{◌≡◌, List, Contains};
ghost use mathlib.Core.List.{IsPrefix};
ghost use Rattle.om_board.specs.declared.inbox.TheConstants.{CAPACITY};
ghost use Rattle.om_board.specs.declared.front.Front.{Front};
ghost use Rattle.om_board.specs.Fronts.{IsPosted};

/// Proves that two passes that met the same board agree on every version that both have seen.
pub fn each_version_has_one_front()
    ensures { (board one other : List Front) (a b : Front) → IsPosted board → IsPrefix one board → IsPrefix other board
        → Contains one a → Contains other b → a.version ≡ b.version → a ≡ b }
{}

/// Proves that the capacity of an inbox is 64 messages.
pub fn limits()
    ensures { CAPACITY ≡ 64 }
{}
