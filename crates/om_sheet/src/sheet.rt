//! The pieces of a picture, with their places.

use crate::step::{EndState, Label};
use om_interval::DepVec;
use om_process::Status;
use om_world::{Answer, Event};

/// A picture that is whole.
#[derive(Drop)]
pub struct Drawn {
    pub sheet: Sheet,
    pub marks: Vec<Shape>,
    pub counts: Counts,
    pub width: u32,
    pub height: u32,
    /// How many lanes it has, where their bands end, and where the legend begins.
    pub lanes: u32,
    pub bottom: u32,
    pub legend: u32,
}

/// The counts of the head.
#[derive(Clone, Copy, Default)]
pub struct Counts {
    pub events: u64,
    pub shown: u64,
    pub rounds: u64,
    pub sent: u64,
    pub resent: u64,
    pub taken: u64,
    pub refused: u64,
    pub failures: u64,
    pub made: u64,
    pub released: u64,
    pub cut: u64,
}

/// The pieces, by layer, each layer before the next.
#[derive(Drop)]
pub struct Sheet {
    pub back: Vec<Band>,
    pub segment: Vec<LaneSegment>,
    pub send: Vec<MessageLine>,
    pub line: Vec<Crossing>,
    pub text: Vec<Word>,
}

/// A round, from its left to its right side.
#[derive(Clone, Copy)]
pub struct Band {
    pub left: u32,
    pub right: u32,
}

/// A piece of a lane, or a tick of the axis.
#[derive(Clone, Copy)]
pub enum LaneSegment {
    Span {
        kind: SegmentKind,
        lane: u32,
        from: u32,
        to: u32,
    },
    Tick {
        x: u32,
    },
}

/// How a process was in a stretch.
#[derive(Clone, Copy)]
pub enum SegmentKind {
    /// Up, in this incarnation.
    Up(u32),
    In,
    Down,
    /// Up, and cut by a round.
    Cut,
}

/// A line across the lanes.
#[derive(Clone, Copy)]
pub enum MessageLine {
    /// A message that was taken.
    Message {
        again: bool,
        cut: bool,
        from: Spot,
        to: Spot,
    },
    /// A message that was refused, from its sending.
    Trail {
        from: Spot,
        to: Spot,
    },
    /// The end of one that was sent long ago.
    Short {
        below: bool,
        to: Spot,
    },
    /// From an output that was held to its release.
    Held {
        from: u32,
        to: Spot,
    },
    /// A message that was never given.
    Stub {
        below: bool,
        from: Spot,
    },
}

/// A place on a lane.
#[derive(Clone, Copy)]
pub struct Spot {
    pub x: u32,
    pub lane: u32,
}

/// A recovery line, through its place on each lane.
#[derive(Drop)]
pub struct Crossing {
    pub places: Vec<Spot>,
    pub kind: LineKind,
}

#[derive(Clone, Copy)]
pub enum LineKind {
    Round(Title),
    /// The last one, with its state.
    End(DepVec),
}

/// A mark on a lane.
#[derive(Clone, Copy)]
pub struct Shape {
    pub glyph: Glyph,
    /// Whether a round cut it.
    pub cut: bool,
    pub at: Spot,
    /// Stems and heads do not tell it.
    pub title: Title,
}

/// The form of a mark.
#[derive(Clone, Copy)]
pub enum Glyph {
    /// A receipt: filled, if it is stored.
    Receipt { stored: bool },
    Checkpoint,
    /// The stem of outputs; again, they were all made before.
    Stem { again: bool },
    /// Its head, where some are new: filled, if they are released.
    Head { released: bool },
    /// The end of a program.
    End,
    /// A run or a resend.
    Dot,
    /// A frame that was not taken.
    Refused,
    /// Receipts that were in memory only are stored: from the first of them.
    Flush { from: u32 },
    Failure,
    Join,
    Back,
    GoesOn,
    /// Outputs that were held are released.
    Released,
}

/// What is told of a mark: the event's line, the event and its answer, and more.
#[derive(Clone, Copy)]
pub struct Title {
    pub line: usize,
    pub event: Event,
    pub answer: Answer,
    pub more: TitleDetail,
}

#[derive(Clone, Copy)]
pub enum TitleDetail {
    Nothing,
    Made {
        outputs: Numbers,
        frames: Numbers,
    },
    Interval(u32),
    /// The recovery state, where it changed.
    Released(Option<DepVec>),
    Round {
        changed: Option<DepVec>,
        round: u32,
        state: DepVec,
    },
}

/// So many numbers, from the first to the last.
#[derive(Clone, Copy)]
pub struct Numbers {
    pub first: u64,
    pub last: u64,
    pub count: u64,
}

/// A word, at its place.
#[derive(Clone, Copy)]
pub struct Word {
    pub style: Style,
    pub x: u32,
    pub y: u32,
    pub what: LabelContent,
}

#[derive(Clone, Copy)]
pub enum Style {
    Plain,
    Small,
    Grey,
    /// Grey, and about its place.
    Middle,
}

#[derive(Clone, Copy)]
pub enum LabelContent {
    Number(u64),
    Inc(u32),
    Round(u32),
    Gathering,
    /// The recovery state.
    Recovery(DepVec),
    /// The place of one process in it.
    Place(u32),
    Output { label: Label, more: u64 },
    End(Status),
    /// Why a frame was refused.
    Why(Answer),
    EndState(Option<EndState>),
    Name(usize),
    Program(usize),
    Line,
}
