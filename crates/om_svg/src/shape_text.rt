//! The text of the marks, and of what stands behind them.

ghost use Rattle.std.specs.Prelude.{◌≡◌, ◌++◌, codes, if◌then◌else◌, OnOk, string_bytes};
ghost use Rattle.std.specs.List.{flat_map};
ghost use Rattle.om_svg.specs.ShapeText.{arrow_text, band_text, changed_text, circle_text, line_kind_class, crossed_title, crossing_text, cut_letter, flush_text, height, look_of, message_start, detail_text, numbers_text, path_end, path_text, place_text, segment_text, shape_text, square_text, start_of, segment_class, title_text, told_text, message_line_text};
ghost use Rattle.om_svg.specs.steps.Marks.{band_at, band_end, band_left, band_start, band_width, circle_at, circle_end, circle_middle, circle_start, circle_x, circle_y, line_kind_text, flush_at, flush_end, flush_start, line_text, path_at, path_middle, path_start, path_tail, square_at, square_class, square_end, square_start, square_x, straight_parts, turning_at, turning_end, turning_parts, turning_start};
ghost use Rattle.om_sheet.specs.declared.sheet.MessageLine.{MessageLine};

use crate::answer_text::push_recovery;
use om_event_text::{push_answer, push_event};
use om_interval::DepVec;
use om_sheet::{
    Band, Crossing, Glyph, LaneSegment, LineKind, MessageLine, Numbers, SegmentKind, Shape, Spot,
    Title, TitleDetail,
};
use std::alloc::AllocError;
use std::fmt::Write;

/// Returns the height of a lane.
pub fn height(lane: u32) -> u64
    ensures { result ≡ height lane }
{
    112 + 64 * u64::from(lane)
}

fn cut_letter(cut: bool) -> &'static str
    ensures { result.now ≡ cut_letter cut }
{
    if cut { "x" } else { "" }
}

/// Writes a band, in a picture with this bottom.
pub fn push_band(text: &mut String, band: Band, bottom: u32) -> Result<(), AllocError>
    ensures { OnOk result (string_bytes text.new ≡ string_bytes text.old ++ band_text bottom band) }
{
    push_band_at(
        text,
        band.left,
        band.right.saturating_sub(band.left),
        bottom.saturating_sub(74),
    )
}

#[tactic(auto, unfolding(crate::specs::steps::Marks::band_at))]
fn push_band_at(text: &mut String, left: u32, width: u32, high: u32) -> Result<(), AllocError>
    ensures { OnOk result (string_bytes text.new ≡ string_bytes text.old ++ band_at left width high) }
{
    push_band_start(text, left, width)?;
    push_band_end(text, high)
}

fn push_band_start(text: &mut String, left: u32, width: u32) -> Result<(), AllocError>
    ensures { OnOk result (string_bytes text.new ≡ string_bytes text.old ++ band_start left width) }
{
    push_band_left(text, left)?;
    push_band_width(text, width)
}

#[tactic(auto, unfolding(crate::specs::steps::Marks::band_left))]
fn push_band_left(text: &mut String, left: u32) -> Result<(), AllocError>
    ensures { OnOk result (string_bytes text.new ≡ string_bytes text.old ++ band_left left) }
{
    write!(text, "<rect class=\"b\" x=\"{left}")
}

#[tactic(auto, unfolding(crate::specs::steps::Marks::band_width))]
fn push_band_width(text: &mut String, width: u32) -> Result<(), AllocError>
    ensures { OnOk result (string_bytes text.new ≡ string_bytes text.old ++ band_width width) }
{
    write!(text, "\" y=\"74\" width=\"{width}")
}

#[tactic(auto, unfolding(crate::specs::steps::Marks::band_end))]
fn push_band_end(text: &mut String, high: u32) -> Result<(), AllocError>
    ensures { OnOk result (string_bytes text.new ≡ string_bytes text.old ++ band_end high) }
{
    write!(text, "\" height=\"{high}\"/>\n")
}

fn segment_class(kind: SegmentKind) -> &'static str
    ensures { result.now ≡ segment_class kind }
{
    match kind {
        SegmentKind::Up(inc) => match inc % 3 {
            0 => "u0",
            1 => "u1",
            _ => "u2",
        },
        SegmentKind::In => "w",
        SegmentKind::Down => "d",
        SegmentKind::Cut => "c",
    }
}

/// Writes a piece of a lane, or a tick.
pub fn push_segment(text: &mut String, segment: LaneSegment) -> Result<(), AllocError>
    ensures { OnOk result (string_bytes text.new ≡ string_bytes text.old ++ segment_text segment) }
{
    match segment {
        LaneSegment::Span {
            kind,
            lane,
            from,
            to,
        } => {
            let class = segment_class(kind);
            let y = height(lane);
            write!(text, "<path class=\"{class}\" d=\"M{from} {y}H{to}\"/>\n")
        }
        LaneSegment::Tick { x } => write!(text, "<path class=\"q\" d=\"M{x} 57v4\"/>\n"),
    }
}

// Writes the line from a sending to a receipt.
fn push_arrow(text: &mut String, from: Spot, to: Spot) -> Result<(), AllocError>
    ensures { OnOk result (string_bytes text.new ≡ string_bytes text.old ++ arrow_text from to) }
{
    if from.lane == to.lane {
        return push_turning(text, from, to);
    }
    push_straight(text, from, to)
}

fn push_turning(text: &mut String, from: Spot, to: Spot) -> Result<(), AllocError>
    ensures { OnOk result (string_bytes text.new ≡ string_bytes text.old ++ turning_parts from to) }
{
    let turn = u64::from(to.x).saturating_sub(8);
    push_turning_at(text, from.x, height(from.lane), turn)
}

#[tactic(auto, unfolding(crate::specs::steps::Marks::turning_at))]
fn push_turning_at(text: &mut String, x: u32, y: u64, turn: u64) -> Result<(), AllocError>
    ensures { OnOk result (string_bytes text.new ≡ string_bytes text.old ++ turning_at x y turn) }
{
    push_turning_start(text, x, y)?;
    push_turning_end(text, turn)
}

#[tactic(auto, unfolding(crate::specs::steps::Marks::turning_start))]
fn push_turning_start(text: &mut String, x: u32, y: u64) -> Result<(), AllocError>
    ensures { OnOk result (string_bytes text.new ≡ string_bytes text.old ++ turning_start x y) }
{
    write!(text, "M{x} {y}")
}

#[tactic(auto, unfolding(crate::specs::steps::Marks::turning_end))]
fn push_turning_end(text: &mut String, turn: u64) -> Result<(), AllocError>
    ensures { OnOk result (string_bytes text.new ≡ string_bytes text.old ++ turning_end turn) }
{
    write!(text, "q0-15 8-15H{turn}q8 0 8 15\"/>\n")
}

#[tactic(auto, unfolding(crate::specs::steps::Marks::straight_parts))]
fn push_straight(text: &mut String, from: Spot, to: Spot) -> Result<(), AllocError>
    ensures { OnOk result (string_bytes text.new ≡ string_bytes text.old ++ straight_parts from to) }
{
    let x = from.x;
    let y = height(from.lane);
    let end = to.x;
    let level = height(to.lane);
    write!(text, "M{x} {y}L{end} {level}\"/>\n")
}

fn message_class(again: bool) -> &'static str
    ensures { result.now ≡ (if again then codes "n" else codes "m") }
{
    if again { "n" } else { "m" }
}

// Writes where the line of a message begins.
#[tactic(auto, unfolding(crate::specs::ShapeText::message_start))]
fn push_message_start(text: &mut String, again: bool, cut: bool) -> Result<(), AllocError>
    ensures { OnOk result (string_bytes text.new ≡ string_bytes text.old ++ message_start again cut) }
{
    let class = message_class(again);
    let cut = cut_letter(cut);
    write!(text, "<path class=\"{class}{cut}\" d=\"")
}

/// Writes a line across the lanes.
pub fn push_message_line(text: &mut String, message_line: MessageLine) -> Result<(), AllocError>
    ensures { OnOk result (string_bytes text.new ≡ string_bytes text.old ++ message_line_text message_line) }
{
    match message_line {
        MessageLine::Message {
            again,
            cut,
            from,
            to,
        } => {
            push_message_start(text, again, cut)?;
            push_arrow(text, from, to)
        }
        MessageLine::Trail { from, to } => {
            text.push_str("<path class=\"o\" d=\"")?;
            push_arrow(text, from, to)
        }
        MessageLine::Short { below, to } => push_short(text, below, to),
        MessageLine::Held { from, to } => push_held(text, from, to),
        MessageLine::Stub { below, from } => push_stub(text, below, from),
    }
}

fn push_short(text: &mut String, below: bool, to: Spot) -> Result<(), AllocError>
    ensures { OnOk result (string_bytes text.new ≡ string_bytes text.old ++ message_line_text (MessageLine.Short below to)) }
{
    let x = to.x;
    let y = height(to.lane);
    let start = u64::from(x).saturating_sub(12);
    let side = if below { y + 16 } else { y - 16 };
    write!(text, "<path class=\"o\" d=\"M{start} {side}L{x} {y}\"/>\n")
}

fn push_held(text: &mut String, from: u32, to: Spot) -> Result<(), AllocError>
    ensures { OnOk result (string_bytes text.new ≡ string_bytes text.old ++ message_line_text (MessageLine.Held from to)) }
{
    let start = u64::from(from) + 5;
    let y = height(to.lane) - 19;
    let end = u64::from(to.x).saturating_sub(3);
    write!(text, "<path class=\"o\" d=\"M{start} {y}H{end}\"/>\n")
}

fn stub_path(below: bool) -> &'static str
    ensures { result.now ≡ (if below then codes "l8 11m-3 2l6-4" else codes "l8-11m-3-2l6 4") }
{
    if below {
        "l8 11m-3 2l6-4"
    } else {
        "l8-11m-3-2l6 4"
    }
}

fn push_stub(text: &mut String, below: bool, from: Spot) -> Result<(), AllocError>
    ensures { OnOk result (string_bytes text.new ≡ string_bytes text.old ++ message_line_text (MessageLine.Stub below from)) }
{
    let x = from.x;
    let y = height(from.lane);
    let path = stub_path(below);
    write!(text, "<path class=\"q\" d=\"M{x} {y}{path}\"/>\n")
}

/// Writes a recovery line.
pub fn push_crossing(text: &mut String, crossing: &Crossing) -> Result<(), AllocError>
    ensures { OnOk result (string_bytes text.new ≡ string_bytes text.old ++ crossing_text crossing.now) }
{
    push_line(text, crossing)?;
    push_places(text, &crossing.places)?;
    push_line_kind(text, &crossing.kind)
}

fn line_kind_class(kind: &LineKind) -> &'static str
    ensures { result.now ≡ line_kind_class kind.now }
{
    match kind {
        LineKind::Round(_) => "r",
        LineKind::End(_) => "j",
    }
}

// Writes what is told of a recovery line.
#[tactic(auto, unfolding(crate::specs::steps::Marks::line_kind_text))]
fn push_line_kind(text: &mut String, kind: &LineKind) -> Result<(), AllocError>
    ensures { OnOk result (string_bytes text.new ≡ string_bytes text.old ++ line_kind_text kind.now) }
{
    text.push_str("v14\">")?;
    push_line_title(text, kind)?;
    text.push_str("</path>\n")
}

fn push_line_title(text: &mut String, kind: &LineKind) -> Result<(), AllocError>
    ensures { OnOk result (string_bytes text.new ≡ string_bytes text.old ++ crossed_title kind.now) }
{
    match kind {
        LineKind::Round(title) => push_title(text, title),
        LineKind::End(state) => {
            text.push_str("<title>")?;
            push_recovery(text, state.as_slice())?;
            text.push_str("</title>")
        }
    }
}

// Returns where a recovery line begins.
fn start_of(places: &[Spot]) -> u32
    ensures { result ≡ start_of places.now }
{
    match places {
        [first, ..] => first.x,
        [] => 0,
    }
}

// Writes the beginning of a recovery line.
#[tactic(auto, unfolding(crate::specs::steps::Marks::line_text))]
fn push_line(text: &mut String, crossing: &Crossing) -> Result<(), AllocError>
    ensures { OnOk result (string_bytes text.new ≡ string_bytes text.old ++ line_text crossing.now) }
{
    let class = line_kind_class(&crossing.kind);
    let first = start_of(&crossing.places);
    write!(text, "<path class=\"{class}\" d=\"M{first} 88")
}

fn push_places(text: &mut String, places: &[Spot]) -> Result<(), AllocError>
    ensures { OnOk result (string_bytes text.new ≡ string_bytes text.old ++ flat_map place_text places.now) }
{
    for place in places {
        push_place(text, *place)?;
    }
    Ok(())
}

fn push_place(text: &mut String, spot: Spot) -> Result<(), AllocError>
    ensures { OnOk result (string_bytes text.new ≡ string_bytes text.old ++ place_text spot) }
{
    let x = spot.x;
    let y = height(spot.lane) - 10;
    write!(text, "L{x} {y}v20")
}

// Returns the class of a mark.
fn class_of(glyph: Glyph) -> &'static str
    ensures { result.now ≡ (look_of glyph).class }
{
    match glyph {
        Glyph::Receipt { stored: true }
        | Glyph::Checkpoint
        | Glyph::Head { released: true }
        | Glyph::Dot
        | Glyph::Back
        | Glyph::Released => "l",
        Glyph::Receipt { stored: false } | Glyph::Head { released: false } | Glyph::GoesOn => "v",
        Glyph::Stem { .. } | Glyph::End | Glyph::Join => "k",
        Glyph::Refused => "h",
        Glyph::Flush { .. } => "i",
        Glyph::Failure => "f",
    }
}

// Returns how far left of its place the path of a mark begins.
fn left_of(glyph: Glyph) -> u64
    ensures { result ≡ (look_of glyph).left }
{
    match glyph {
        Glyph::Failure => 6,
        Glyph::Head { .. } | Glyph::Back | Glyph::GoesOn | Glyph::Released => 4,
        _ => 0,
    }
}

// Returns how far above its lane.
fn above_of(glyph: Glyph) -> u64
    ensures { result ≡ (look_of glyph).up }
{
    match glyph {
        Glyph::Head { .. } | Glyph::Released => 16,
        Glyph::End => 7,
        Glyph::Refused => 5,
        Glyph::Failure | Glyph::Join | Glyph::Back | Glyph::GoesOn => 6,
        _ => 0,
    }
}

// Returns the path of a mark, from there on.
fn path_of(glyph: Glyph) -> &'static str
    ensures { result.now ≡ (look_of glyph).path }
{
    match glyph {
        Glyph::Stem { again: true } => "v-16m-4 0h8",
        Glyph::Stem { again: false } => "v-16",
        Glyph::Head { .. } | Glyph::Released => "l4-6 4 6z",
        Glyph::End => "v14",
        Glyph::Refused => "l5 5-5 5-5-5z",
        Glyph::Failure => "l12 12m0-12l-12 12",
        Glyph::Join => "v12",
        Glyph::Back | Glyph::GoesOn => "l10 6-10 6z",
        _ => "",
    }
}

/// Writes a mark.
pub fn push_shape(text: &mut String, shape: &Shape) -> Result<(), AllocError>
    ensures { OnOk result (string_bytes text.new ≡ string_bytes text.old ++ shape_text shape.now) }
{
    match shape.glyph {
        Glyph::Receipt { .. } => push_circle(text, shape, 4),
        Glyph::Dot => push_circle(text, shape, 2),
        Glyph::Checkpoint => push_square(text, shape),
        Glyph::Flush { from } => push_flush(text, shape, from),
        _ => push_path(text, shape),
    }
}

fn push_circle(text: &mut String, shape: &Shape, radius: u32) -> Result<(), AllocError>
    ensures { OnOk result (string_bytes text.new ≡ string_bytes text.old ++ circle_text shape.now radius) }
{
    let class = class_of(shape.glyph);
    let cut = cut_letter(shape.cut);
    let y = height(shape.at.lane);
    push_circle_at(text, class, cut, shape.at.x, y, radius)?;
    push_title(text, &shape.title)?;
    text.push_str("</circle>\n")
}

#[tactic(auto, unfolding(crate::specs::steps::Marks::circle_at))]
fn push_circle_at(
    text: &mut String,
    class: &str,
    cut: &str,
    x: u32,
    y: u64,
    radius: u32,
) -> Result<(), AllocError>
    ensures { OnOk result (string_bytes text.new ≡ string_bytes text.old ++ circle_at class.now cut.now x y radius) }
{
    push_circle_start(text, class, cut)?;
    push_circle_middle(text, x, y)?;
    push_circle_end(text, radius)
}

#[tactic(auto, unfolding(crate::specs::steps::Marks::circle_start))]
fn push_circle_start(text: &mut String, class: &str, cut: &str) -> Result<(), AllocError>
    ensures { OnOk result (string_bytes text.new ≡ string_bytes text.old ++ circle_start class.now cut.now) }
{
    write!(text, "<circle class=\"{class}{cut}")
}

fn push_circle_middle(text: &mut String, x: u32, y: u64) -> Result<(), AllocError>
    ensures { OnOk result (string_bytes text.new ≡ string_bytes text.old ++ circle_middle x y) }
{
    push_circle_x(text, x)?;
    push_circle_y(text, y)
}

#[tactic(auto, unfolding(crate::specs::steps::Marks::circle_x))]
fn push_circle_x(text: &mut String, x: u32) -> Result<(), AllocError>
    ensures { OnOk result (string_bytes text.new ≡ string_bytes text.old ++ circle_x x) }
{
    write!(text, "\" cx=\"{x}")
}

#[tactic(auto, unfolding(crate::specs::steps::Marks::circle_y))]
fn push_circle_y(text: &mut String, y: u64) -> Result<(), AllocError>
    ensures { OnOk result (string_bytes text.new ≡ string_bytes text.old ++ circle_y y) }
{
    write!(text, "\" cy=\"{y}")
}

#[tactic(auto, unfolding(crate::specs::steps::Marks::circle_end))]
fn push_circle_end(text: &mut String, radius: u32) -> Result<(), AllocError>
    ensures { OnOk result (string_bytes text.new ≡ string_bytes text.old ++ circle_end radius) }
{
    write!(text, "\" r=\"{radius}\">")
}

fn push_square(text: &mut String, shape: &Shape) -> Result<(), AllocError>
    ensures { OnOk result (string_bytes text.new ≡ string_bytes text.old ++ square_text shape.now) }
{
    let cut = cut_letter(shape.cut);
    let x = u64::from(shape.at.x).saturating_sub(5);
    let y = height(shape.at.lane) - 5;
    push_square_at(text, cut, x, y)?;
    push_title(text, &shape.title)?;
    text.push_str("</rect>\n")
}

#[tactic(auto, unfolding(crate::specs::steps::Marks::square_at))]
fn push_square_at(text: &mut String, cut: &str, x: u64, y: u64) -> Result<(), AllocError>
    ensures { OnOk result (string_bytes text.new ≡ string_bytes text.old ++ square_at cut.now x y) }
{
    push_square_start(text, cut, x)?;
    push_square_end(text, y)
}

fn push_square_start(text: &mut String, cut: &str, x: u64) -> Result<(), AllocError>
    ensures { OnOk result (string_bytes text.new ≡ string_bytes text.old ++ square_start cut.now x) }
{
    push_square_class(text, cut)?;
    push_square_x(text, x)
}

#[tactic(auto, unfolding(crate::specs::steps::Marks::square_class))]
fn push_square_class(text: &mut String, cut: &str) -> Result<(), AllocError>
    ensures { OnOk result (string_bytes text.new ≡ string_bytes text.old ++ square_class cut.now) }
{
    write!(text, "<rect class=\"l{cut}")
}

#[tactic(auto, unfolding(crate::specs::steps::Marks::square_x))]
fn push_square_x(text: &mut String, x: u64) -> Result<(), AllocError>
    ensures { OnOk result (string_bytes text.new ≡ string_bytes text.old ++ square_x x) }
{
    write!(text, "\" x=\"{x}")
}

#[tactic(auto, unfolding(crate::specs::steps::Marks::square_end))]
fn push_square_end(text: &mut String, y: u64) -> Result<(), AllocError>
    ensures { OnOk result (string_bytes text.new ≡ string_bytes text.old ++ square_end y) }
{
    write!(text, "\" y=\"{y}\" width=\"10\" height=\"10\">")
}

fn push_flush(text: &mut String, shape: &Shape, from: u32) -> Result<(), AllocError>
    ensures { OnOk result (string_bytes text.new ≡ string_bytes text.old ++ flush_text shape.now from) }
{
    let start = u64::from(from).saturating_sub(5);
    let y = height(shape.at.lane) + 6;
    push_flush_at(text, start, y, shape.at.x)?;
    push_title(text, &shape.title)?;
    text.push_str("</path>\n")
}

#[tactic(auto, unfolding(crate::specs::steps::Marks::flush_at))]
fn push_flush_at(text: &mut String, start: u64, y: u64, x: u32) -> Result<(), AllocError>
    ensures { OnOk result (string_bytes text.new ≡ string_bytes text.old ++ flush_at start y x) }
{
    push_flush_start(text, start, y)?;
    push_flush_end(text, x)
}

#[tactic(auto, unfolding(crate::specs::steps::Marks::flush_start))]
fn push_flush_start(text: &mut String, start: u64, y: u64) -> Result<(), AllocError>
    ensures { OnOk result (string_bytes text.new ≡ string_bytes text.old ++ flush_start start y) }
{
    write!(text, "<path class=\"i\" d=\"M{start} {y}")
}

#[tactic(auto, unfolding(crate::specs::steps::Marks::flush_end))]
fn push_flush_end(text: &mut String, x: u32) -> Result<(), AllocError>
    ensures { OnOk result (string_bytes text.new ≡ string_bytes text.old ++ flush_end x) }
{
    write!(text, "v3H{x}v-3\">")
}

fn push_path(text: &mut String, shape: &Shape) -> Result<(), AllocError>
    ensures { OnOk result (string_bytes text.new ≡ string_bytes text.old ++ path_text shape.now) }
{
    let class = class_of(shape.glyph);
    let cut = cut_letter(shape.cut);
    let x = u64::from(shape.at.x).saturating_sub(left_of(shape.glyph));
    let y = height(shape.at.lane).saturating_sub(above_of(shape.glyph));
    let path = path_of(shape.glyph);
    push_path_at(text, class, cut, x, y, path)?;
    push_path_end(text, shape)
}

#[tactic(auto, unfolding(crate::specs::steps::Marks::path_at))]
fn push_path_at(
    text: &mut String,
    class: &str,
    cut: &str,
    x: u64,
    y: u64,
    path: &str,
) -> Result<(), AllocError>
    ensures { OnOk result (string_bytes text.new ≡ string_bytes text.old ++ path_at class.now cut.now x y path.now) }
{
    push_path_start(text, class, cut)?;
    push_path_middle(text, x, y)?;
    push_path_tail(text, path)
}

#[tactic(auto, unfolding(crate::specs::steps::Marks::path_start))]
fn push_path_start(text: &mut String, class: &str, cut: &str) -> Result<(), AllocError>
    ensures { OnOk result (string_bytes text.new ≡ string_bytes text.old ++ path_start class.now cut.now) }
{
    write!(text, "<path class=\"{class}{cut}")
}

#[tactic(auto, unfolding(crate::specs::steps::Marks::path_middle))]
fn push_path_middle(text: &mut String, x: u64, y: u64) -> Result<(), AllocError>
    ensures { OnOk result (string_bytes text.new ≡ string_bytes text.old ++ path_middle x y) }
{
    write!(text, "\" d=\"M{x} {y}")
}

#[tactic(auto, unfolding(crate::specs::steps::Marks::path_tail))]
fn push_path_tail(text: &mut String, path: &str) -> Result<(), AllocError>
    ensures { OnOk result (string_bytes text.new ≡ string_bytes text.old ++ path_tail path.now) }
{
    write!(text, "{path}\"")
}

// Writes what stands behind the path: stems and heads have no title.
#[tactic(auto, unfolding(crate::specs::ShapeText::path_end))]
fn push_path_end(text: &mut String, shape: &Shape) -> Result<(), AllocError>
    ensures { OnOk result (string_bytes text.new ≡ string_bytes text.old ++ path_end shape.now.glyph shape.now.title) }
{
    match shape.glyph {
        Glyph::Stem { .. } | Glyph::Head { .. } => text.push_str("/>\n"),
        _ => {
            text.push('>')?;
            push_title(text, &shape.title)?;
            text.push_str("</path>\n")
        }
    }
}

#[tactic(auto, unfolding(crate::specs::ShapeText::title_text))]
fn push_title(text: &mut String, title: &Title) -> Result<(), AllocError>
    ensures { OnOk result (string_bytes text.new ≡ string_bytes text.old ++ title_text title.now) }
{
    text.push_str("<title>")?;
    push_told(text, title)?;
    text.push_str("</title>")
}

// Writes what is told of a mark.
#[tactic(auto, unfolding(crate::specs::ShapeText::told_text))]
fn push_told(text: &mut String, title: &Title) -> Result<(), AllocError>
    ensures { OnOk result (string_bytes text.new ≡ string_bytes text.old ++ told_text title.now) }
{
    let line = title.line;
    write!(text, "{line} ")?;
    push_event(text, title.event)?;
    text.push_str(": ")?;
    push_answer(text, title.answer)?;
    push_detail(text, title.more)
}

fn push_detail(text: &mut String, more: TitleDetail) -> Result<(), AllocError>
    ensures { OnOk result (string_bytes text.new ≡ string_bytes text.old ++ detail_text more) }
{
    match more {
        TitleDetail::Nothing => Ok(()),
        TitleDetail::Made { outputs, frames } => {
            push_numbers(text, "output", outputs)?;
            push_numbers(text, "frame", frames)
        }
        TitleDetail::Interval(interval) => write!(text, ", interval {interval}"),
        TitleDetail::Released(changed) => {
            push_changed(text, changed)?;
            text.push_str(": released")
        }
        TitleDetail::Round {
            changed,
            round,
            state,
        } => {
            push_changed(text, changed)?;
            write!(text, ": round {round}, ")?;
            push_recovery(text, state.as_slice())
        }
    }
}

fn push_changed(text: &mut String, changed: Option<DepVec>) -> Result<(), AllocError>
    ensures { OnOk result (string_bytes text.new ≡ string_bytes text.old ++ changed_text changed) }
{
    match changed {
        Some(state) => {
            text.push_str(", ")?;
            push_recovery(text, state.as_slice())
        }
        None => Ok(()),
    }
}

// Writes numbers of outputs or frames, if there are some.
#[tactic(auto, unfolding(crate::specs::ShapeText::numbers_text))]
fn push_numbers(text: &mut String, what: &str, numbers: Numbers) -> Result<(), AllocError>
    ensures { OnOk result (string_bytes text.new ≡ string_bytes text.old ++ numbers_text what.now numbers) }
{
    let first = numbers.first;
    if numbers.count == 0 {
        return Ok(());
    }
    if numbers.count == 1 {
        return write!(text, ", {what} {first}");
    }
    let last = numbers.last;
    write!(text, ", {what}s {first} to {last}")
}
