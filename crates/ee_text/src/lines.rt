//! The lines of a text, each of which a line feed ends.
ghost use Rattle.std.specs.Prelude.{◌≡◌, ◌++◌, IfSome, IfNone};
ghost use Rattle.ee_text.specs.Line.{IsLine, line_of, line_feed};
ghost use Rattle.ee_text.specs.Field.{Lacks};

use crate::cuts::cut_at_first;

/// What stands in the first line, and what stands after the line. None where no line feed ends a
/// line.
pub fn next_line(bytes: &[u8]) -> Option<(&[u8], &[u8])>
    ensures parts { IfSome result (λ parts. bytes.now ≡ line_of parts.0.now ++ parts.1.now) }
    ensures first { IfSome result (λ parts. IsLine parts.0.now) }
    ensures none { IfNone result (Lacks line_feed bytes.now) }
{
    cut_at_first(bytes, b'\n')
}
