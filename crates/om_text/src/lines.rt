//! The lines of a text.

ghost use Rattle.std.specs.Prelude.{◌≡◌, ◌==◌, ◌<◌, ◌↔◌, [], ◌∷◌, length, position, IsNone, IfSome};
ghost use Rattle.std.specs.Str.Lines.{lines, strip_carriage_return};

// Returns the first line without its end, and what follows it; none of an empty text.
pub(crate) fn split_line(text: &[u8]) -> Option<(&[u8], &[u8])>
    ensures none { IsNone result ↔ (text.now ≡ []) }
    ensures first { IfSome result (λ parts.
        lines text.now ≡ parts.0.now ∷ lines parts.1.now) }
    ensures shorter { IfSome result (λ parts. length parts.1.now < length text.now) }
{
    if text.is_empty() {
        return None;
    }
    match line_end(text) {
        None => Some((text, &[])),
        Some(end) => Some((without_return(&text[..end]), &text[end + 1..])),
    }
}

// Returns the place of the first LF.
fn line_end(text: &[u8]) -> Option<usize>
    ensures { result ≡ position (λ byte. byte == 10) text.now }
{
    text.iter().position(|byte| *byte == b'\n')
}

fn without_return(line: &[u8]) -> &[u8]
    ensures { result.now ≡ strip_carriage_return line.now }
{
    match line {
        [front @ .., b'\r'] => front,
        _ => line,
    }
}
