// A text in pieces.
ghost use Rattle.std.specs.Prelude.{◌≡◌, ◌≤◌, length};
ghost use Rattle.text.specs.Working.Cut.{Cut};

use crate::LINE_FEED;
use crate::find::find;

// A text up to the first b, and what stands behind that where there is one.
pub fn cut(text: &[u8], b: u8) -> (&[u8], Option<&[u8]>)
    ensures { Cut b text.now result.0.now result.1 }
{
    match find(text, b) {
        Some(at) => (&text[..at], Some(&text[at + 1..])),
        None => (text, None),
    }
}

// The lines that a text has still to give.
#[derive(Clone, Copy)]
pub struct Lines<'a>(pub &'a [u8]);

impl<'a> Iterator for Lines<'a> {
    ghost use Rattle.std.specs.Iterator.{YieldsFirstBy, item_count};
    ghost use Rattle.text.specs.Pieces.{lines_of};

    type Item = &'a [u8];

    ghost next_gives = { YieldsFirstBy (λ line. line.now) (λ s. lines_of s.0.now) };

    ghost remaining = { item_count (λ s. lines_of s.0.now) };

    fn next(&mut self) -> Option<&'a [u8]> {
        if self.0.is_empty() {
            return None;
        }
        let (line, rest) = cut(self.0, LINE_FEED);
        self.0 = rest.unwrap_or(&[]);
        Some(line)
    }
}
