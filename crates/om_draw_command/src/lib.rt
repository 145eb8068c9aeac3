//! The command `draw`: the picture of a world that is played from a script. It stands above the other commands over scripts, since
//! only it stands on pictures.
//!
//! It costs what the script costs to play, and the text of each mark. Only what the reader and the writer answer is trusted.
//!
//! In an order of reading: `draw`, `reading` (what is read of a world that plays an event), `laws` (theorems over the definitions).
#![tactic(auto)]

pub mod draw;
pub mod laws;
pub mod reading;
