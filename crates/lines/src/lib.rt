// Finds the lines of a text, one per call.
#![tactic(auto)]

ghost use Rattle.std.specs.Prelude.{◌≡◌};
ghost use Rattle.lines.specs.Places.{line_at};

use text::LF;

// A line is the bytes from start up to end. If it is whole, the last of them is its LF.
#[derive(Clone, Copy, Debug, PartialEq, Eq)]
pub struct Place {
    pub start: usize,
    pub end: usize,
    pub whole: bool,
}

// The first line from a place on. If no LF follows, it is all that is left, and it is not whole.
pub fn next_line(s: &[u8], at: usize) -> Place
    ensures { result ≡ line_at s.now at }
{
    for i in at..s.len() {
        if s[i] == LF {
            return Place {
                start: at,
                end: i + 1,
                whole: true,
            };
        }
    }
    Place {
        start: at,
        end: at.max(s.len()),
        whole: false,
    }
}
