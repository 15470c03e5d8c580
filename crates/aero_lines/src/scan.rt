//! Where a text that goes on with a piece has a line that is too long.
ghost use Rattle.std.specs.Prelude.{◌≡◌, ◌++◌, ◌≤◌, false, true, take, length, MatchOption};
ghost use Rattle.aero_model.specs.Lines.{cap};
ghost use Rattle.aero_lines.specs.Cutting.{has_too_long, IsOpenLine};

use aero_model::bytes::MOST_LINE_BYTES;
use memchr::memrchr;

// Of the text `line` and then `piece`: how many bytes of the piece show that a line is too long,
// or None where none is. It looks for the last line end among the bytes that a line may still
// have, so each byte is looked at twice at most.
pub fn bytes_to_too_long(line: &[u8], piece: &[u8]) -> Option<usize>
    requires { IsOpenLine line.now }
    ensures { MatchOption result (has_too_long (line.now ++ piece.now) ≡ false) (λ bytes.
        (bytes ≤ length piece.now) × (has_too_long (line.now ++ piece.now) ≡ true) ×
        (cap (line.now ++ piece.now) ≡ line.now ++ take bytes piece.now)) }
{
    let mut before = line.len();
    let mut start = 0;
    while piece.len() - start > MOST_LINE_BYTES - before {
        let end = start + (MOST_LINE_BYTES - before) + 1;
        match memrchr(b'\n', &piece[start..end]) {
            None => return Some(end),
            Some(last) => {
                start += last + 1;
                before = 0;
            }
        }
    }
    None
}
