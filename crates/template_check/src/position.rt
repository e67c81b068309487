//! Lines and columns.

ghost use Rattle.std.specs.Prelude.{◌≡◌, ◌≤◌, ◌<◌, ◌+◌, ◌^◌, length};
ghost use Rattle.template_check.specs.Positions as spec;

const LINE_FEED: u8 = b'\n';

/// A place of a text as editors show it.
#[derive(Clone, Copy, Debug, Drop, PartialEq, Eq)]
pub struct Position {
    /// From 1. A line ends after its line feed.
    pub line: usize,
    /// In bytes, from 1.
    pub column: usize,
}

impl Position {
    /// Of the first byte of a text.
    pub(crate) const START: Position = Position { line: 1, column: 1 };

    // The position after these bytes, of which the first is at this one.
    pub(crate) fn behind(self, bytes: &[u8]) -> Position
        requires line { self.line + length bytes.now < 2 ^ 64 }
        requires column { self.column + length bytes.now < 2 ^ 64 }
        ensures value { result ≡ spec.behind_all bytes.now self }
        ensures line { result.line ≤ self.line + length bytes.now }
        ensures column { result.column ≤ self.column + length bytes.now }
    {
        let mut position = self;
        for byte in bytes {
            if *byte == LINE_FEED {
                position.line += 1;
                position.column = 1;
            } else {
                position.column += 1;
            }
        }
        position
    }
}

/// The line and the column of a place, which is a number of bytes; past the text's end, those of the end. Takes no
/// memory.
///
/// A tab is one byte, a carriage return is one more byte of its line, and a letter has as many columns as it has bytes.
pub fn position_of(text: &[u8], place: usize) -> Position
    ensures { result ≡ spec.position_of text.now place }
{
    let (before, _) = text.split_at(place.min(text.len()));
    Position::START.behind(before)
}
