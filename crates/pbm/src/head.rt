// The head of a file: P1 and the two numbers.
ghost use Rattle.std.specs.Prelude.{◌≡◌, true, false, ◌+◌, ◌*◌, ◌≤◌, ◌<◌, min, MatchOption, MatchResult, slice_index, drop};
ghost use Rattle.parts.specs.Refusal.{refusal_number};
ghost use Rattle.pbm.specs.Contents.{is_digit, behind_digits, marked, opens, from_dots};
ghost use Rattle.pbm.specs.Working.Heads.{Read, Opened, head_number};

use crate::white::{is_white, pass};
use parts::refusal::Refusal;
use text::digits::digit;

// From LARGE on numbers are not told apart: no picture is that wide.
const LARGE: u32 = 65536;

// n with a digit more, LARGE at most.
fn grown(n: u32, d: u32) -> u32
    requires { (n ≤ 65536) × (d < 10) }
    ensures { result ≡ min 65536 (n * 10 + d) }
{
    (n * 10 + d).min(LARGE)
}

// What is left of a file behind digits.
fn past_digits(left: &[u8]) -> &[u8]
    ensures { result.now ≡ behind_digits left.now }
{
    for (i, &b) in left.iter().enumerate() {
        let Some(_) = digit(b, 10) else {
            return &left[i..];
        };
    }
    &[]
}

// A whole number, its digits as far as they go, and what is left of the file behind them. Once it is LARGE no digit changes it: told
// so, the loop waits for no compare from digit to digit.
fn read_whole(left: &[u8]) -> Option<(u32, &[u8])>
    ensures { MatchOption result (is_digit (slice_index left.now 0) ≡ false) (λ whole. Read left.now whole.0 whole.1.now) }
{
    let (first, rest) = left.split_first()?;
    let mut n = digit(*first, 10)?;
    for (i, &b) in rest.iter().enumerate() {
        let Some(d) = digit(b, 10) else {
            return Some((n, &rest[i..]));
        };
        n = grown(n, d);
        if n == LARGE {
            return Some((LARGE, past_digits(&rest[i + 1..])));
        }
    }
    Some((n, &[]))
}

// What is left of a file behind P1, where some white space follows.
#[tactic(auto, using(crate::proofs::Headings::short_unmarked), unfolding(crate::specs::Contents::marked))]
fn behind_mark(file: &[u8]) -> Option<&[u8]>
    ensures { MatchOption result (marked file.now ≡ false) (λ left. (marked file.now ≡ true) × (left.now ≡ drop 2 file.now)) }
{
    match file {
        [b'P', b'1', b, ..] if is_white(*b) || *b == b'#' => Some(&file[2..]),
        _ => None,
    }
}

// The two numbers of a head, and what is left of the file behind them, which has the dots.
fn read_numbers(file: &[u8]) -> Option<(u32, u32, &[u8])>
    ensures { MatchOption result (opens file.now ≡ false) (λ head. Opened file.now head.0 head.1 head.2.now) }
{
    let left = behind_mark(file)?;
    let (width, left) = read_whole(pass(left))?;
    let (height, dots) = read_whole(pass(left))?;
    Some((width, height, dots))
}

// Reads the head of a file that is to be of a width and a height. What is left of the file has the dots.
pub(crate) fn read_head(file: &[u8], width: u16, height: u16) -> Result<&[u8], Refusal>
    ensures { MatchResult result
        (λ dots. (head_number width height file.now ≡ 0) × (dots.now ≡ from_dots file.now))
        (λ why. head_number width height file.now ≡ refusal_number why) }
{
    let (read_width, read_height, dots) = read_numbers(file).ok_or(Refusal::NoPbm)?;
    if read_width != u32::from(width) || read_height != u32::from(height) {
        return Err(Refusal::OtherSize);
    }
    Ok(dots)
}
