// White space and comments.
ghost use Rattle.std.specs.Prelude.{◌≡◌, false};
ghost use Rattle.pbm.specs.Contents.{is_white, passed};

use text::{LINE_FEED, TAB};

// Two patterns: of one the compiler makes a branch for each byte, and white space takes half as long again.
#[tactic(auto, unfolding(crate::specs::Contents::is_white))]
pub(crate) fn is_white(b: u8) -> bool
    ensures { result ≡ is_white b }
{
    matches!(b, b' ' | TAB) | matches!(b, b'\r' | LINE_FEED)
}

// What is left of a file behind white space and comments.
pub(crate) fn pass(left: &[u8]) -> &[u8]
    ensures { result.now ≡ passed false left.now }
{
    let mut comment = false;
    for (i, &b) in left.iter().enumerate() {
        if comment {
            comment = b != LINE_FEED;
        } else if b == b'#' {
            comment = true;
        } else if !is_white(b) {
            return &left[i..];
        }
    }
    &[]
}
