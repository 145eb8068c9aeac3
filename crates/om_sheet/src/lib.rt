//! What a picture is told of an event, what the event shows, and the pieces that a picture is made of: data, without text.
//!
//! A piece is a few numbers with its place, and the event and the answer that its title tells; a picture has some for each
//! event. Nothing is trusted here.
//!
//! In an order of reading: `step` (an event, its answer and what is read of the world), `shown` (what that shows), `sheet` (the
//! pieces with their places, layer by layer, and a picture that is whole).
#![tactic(auto)]

pub use sheet::{
    Band, Counts, Crossing, Drawn, Glyph, LabelContent, LaneSegment, LineKind, MessageLine,
    Numbers, SegmentKind, Shape, Sheet, Spot, Style, Title, TitleDetail, Word,
};
pub use shown::{Shown, is_finished, shown_of};
pub use step::{EndState, LABEL_BYTES, Label, PlayedEvent, process_of};

mod sheet;
mod shown;
mod step;
