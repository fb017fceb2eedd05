//! The parts of a script line: its moment, then an untimed line with its line end.

ghost use Rattle.std.specs.Prelude.{◌≡◌, IfNone, IfSome, MatchOption};
ghost use Rattle.std.specs.Io.BufRead.{strip_last};
ghost use Rattle.reg_lines.specs.Meaning.{HasMoment, HasNoMoment, OneBeginning};
ghost use Rattle.reg_lines.specs.Script.{IsShortUntimedLine, line_of};

use crate::lines::LONGEST_UNTIMED_LINE;
use reg_core::Moment;

/// The number of bytes of a moment's text, such as `2026-01-01T09:10:00Z`.
pub(crate) const MOMENT: usize = 20;

/// The moment that begins a script line, and the untimed line after the space that follows; `None` for other lines. No line has two readings.
pub fn take_moment(line: &[u8]) -> Option<(Moment, &[u8])>
    ensures found { IfSome result (λ taken. HasMoment line.now taken.0 taken.1.now) }
    ensures none { IfNone result (HasNoMoment line.now) }
    ensures one { OneBeginning }
{
    if line.len() <= MOMENT || line[MOMENT] != b' ' {
        return None;
    }
    let now = Moment::read(&line[..MOMENT])?;
    Some((now, &line[MOMENT + 1..]))
}

/// The untimed line `line` without its line end; `None` if it has more than [`LONGEST_UNTIMED_LINE`] (8,171) bytes before its LF.
pub fn untimed_line(line: &[u8]) -> Option<&[u8]>
    ensures { MatchOption result (¬ IsShortUntimedLine line.now)
        (λ command. (command.now ≡ line_of line.now) × IsShortUntimedLine line.now) }
{
    if without_last(line, b'\n').len() > LONGEST_UNTIMED_LINE {
        return None;
    }
    Some(without_end(line))
}

/// A line without its LF and without one CR before that; a line without LF stays as it is.
pub fn without_end(line: &[u8]) -> &[u8]
    ensures { result.now ≡ line_of line.now }
{
    if line.ends_with(b"\n") {
        without_last(without_last(line, b'\n'), b'\r')
    } else {
        line
    }
}

fn without_last(text: &[u8], byte: u8) -> &[u8]
    ensures { result.now ≡ strip_last byte text.now }
{
    let len = text.len();
    if len > 0 && text[len - 1] == byte {
        &text[..len - 1]
    } else {
        text
    }
}
