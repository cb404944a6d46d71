// The signs of a file, eight at a time: a byte of the picture.
ghost use Rattle.std.specs.Prelude.{◌≡◌, true, false, ◌+◌, ◌*◌, ◌<◌, eqb, IfSome, MatchOption};
ghost use Rattle.picture.specs.Bit.{digit};
ghost use Rattle.pbm.specs.Contents.{is_dot, are_dots, weighed};
ghost use Rattle.pbm.specs.Working.Eights.{Eight, Eights};

use crate::white::pass;

#[tactic(auto, unfolding(crate::specs::Contents::is_dot))]
fn is_dot(b: u8) -> bool
    ensures { result ≡ is_dot b }
{
    matches!(b, b'0' | b'1')
}

// Whether eight signs are all dots. No sign ends the search early, so that eight are known by one compare.
fn are_eight(signs: &[u8; 8]) -> bool
    ensures { result ≡ are_dots signs.now }
{
    signs.iter().copied().fold(true, |dots, b| dots & is_dot(b))
}

// A dot as a bit below the bits of v.
#[tactic(auto, using(crate::proofs::Eights::dot_digit))]
fn below(b: u8, v: u8) -> u8
    requires { (is_dot b ≡ true) × (v < 128) }
    ensures { result ≡ digit (eqb b 49) + 2 * v }
{
    b - b'0' + 2 * v
}

// The byte that eight signs show, where they are dots.
fn byte_of(signs: &[u8; 8]) -> Option<u8>
    ensures { MatchOption result (are_dots signs.now ≡ false) (λ byte. (are_dots signs.now ≡ true) × (byte ≡ weighed 8 signs.now)) }
{
    if !are_eight(signs) {
        return None;
    }
    let mut byte = 0;
    for b in signs.iter().rev() {
        byte = below(*b, byte);
    }
    Some(byte)
}

// The next eight signs as a byte, and what is left behind them, where nothing stands before or among them. The byte fills a word, since
// what lies idle beside a lone byte would be carried along from call to call.
fn side_by_side(left: &[u8]) -> Option<(usize, &[u8])>
    ensures { IfSome result (λ e. Eight left.now e.0 e.1.now) }
{
    let (signs, behind) = left.split_first_chunk::<8>()?;
    Some((usize::from(byte_of(signs)?), behind))
}

// The same signs one after the other, white space and comments before each of them passed over. The first that is no dot ends the
// search: however much stands behind it, nobody looks at that. Called too, so that `find_eight` stays short where no search is asked for.
#[inline(never)]
fn search(left: &[u8]) -> Option<(usize, &[u8])>
    ensures { Eights left.now result }
{
    let mut rest = left;
    let mut signs = [0; 8];
    for sign in signs.iter_mut() {
        let (b, behind) = pass(rest).split_first()?;
        if !is_dot(*b) {
            return None;
        }
        *sign = *b;
        rest = behind;
    }
    Some((usize::from(byte_of(&signs)?), rest))
}

// The same behind white space: only white space among them asks for a search. Called, and not compiled into the loops that take
// eight by eight: these take half as long again or twice as long then.
#[inline(never)]
fn find_eight(left: &[u8]) -> Option<(usize, &[u8])>
    ensures { Eights left.now result }
{
    let signs = pass(left);
    side_by_side(signs).or_else(|| search(signs))
}

// The next eight signs as a byte, where they are dots, and what is left behind them. Most stand side by side, with no white
// space before them.
pub(crate) fn take_eight(left: &[u8]) -> Option<(usize, &[u8])>
    ensures { Eights left.now result }
{
    side_by_side(left).or_else(|| find_eight(left))
}
