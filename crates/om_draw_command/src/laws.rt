//! What holds of scripts: each function stands for a theorem over the definitions alone.

ghost use Rattle.std.specs.Prelude.{◌≡◌, ◌<◌, ℕ, List, length, slice_index};
ghost use Rattle.om_draw_command.specs.Draw.{event_lines};

/// Proves that the numbers of the lines of events rise: each event has a line of its own, behind those of the
/// events before it.
pub fn event_lines_rise()
    ensures { (bytes : List ℕ) (events i j : ℕ) → i < j → j < length (event_lines bytes events)
        → slice_index (event_lines bytes events) i < slice_index (event_lines bytes events) j }
{}
