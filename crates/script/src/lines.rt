//! The lines of a text.

ghost use Rattle.std.specs.Prelude.{◌≡◌, ◌<◌, ◌==◌, IfSome, length, option_map};
ghost use Rattle.std.specs.List.{position_from};
ghost use Rattle.script.specs.Reading.{is_ended, line_and_rest};

/// Whether a text is empty or has a newline at its end.
pub fn is_ended(text: &[u8]) -> bool
    ensures { result ≡ is_ended text.now }
{
    match text {
        [.., last] => *last == b'\n',
        [] => true,
    }
}

/// The place of the first newline.
fn first_newline(text: &[u8]) -> Option<usize>
    ensures first { result ≡ position_from (λ byte. byte == 10) 0 text.now }
    ensures within { IfSome result (λ at. at < length text.now) }
{
    text.iter().position(|byte| *byte == b'\n')
}

/// The first line of a text, without the newline at its end, and the text after that newline.
/// `None` if there is no newline.
pub fn line_and_rest(text: &[u8]) -> Option<(&[u8], &[u8])>
    ensures { option_map (λ parts. (parts.0.now, parts.1.now)) result ≡ line_and_rest text.now }
{
    let at = first_newline(text)?;
    Some((&text[..at], &text[at + 1..]))
}
