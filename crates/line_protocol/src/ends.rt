//! Where lines end, and what they are.
ghost use Rattle.std.specs.Prelude.{◌≡◌, ◌≤◌, length, take, position, ◌==◌};
ghost use Rattle.trace_types.specs.text.Lines.{without_return};
ghost use Rattle.line_protocol.specs.Ends.{kind_of_length};

use crate::Line;
use memchr::memchr_iter;

/// The place of the first end of line in the bytes.
pub(crate) fn first_end(bytes: &[u8]) -> Option<usize>
    ensures { result ≡ position (λ byte. byte == 10) bytes.now }
{
    memchr_iter(b'\n', bytes).next()
}

/// How many bytes the piece has without one carriage return at its end.
pub(crate) fn length_without_return(piece: &[u8]) -> usize
    ensures taken { take result piece.now ≡ without_return piece.now }
    ensures within { result ≤ length piece.now }
{
    let len = piece.len();
    if len > 0 && piece[len - 1] == b'\r' {
        len - 1
    } else {
        len
    }
}

/// What a line of this length is, if it may have at most `most` bytes.
pub(crate) fn kind_of(len: usize, most: usize) -> Line
    ensures { result ≡ kind_of_length most len }
{
    if len > most {
        Line::TooLong
    } else {
        Line::Whole
    }
}
