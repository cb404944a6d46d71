// A field read as a number.
ghost use Rattle.std.specs.Prelude.{◌≤◌, ◌<◌, is_some, unwrap_or};
ghost use Rattle.text.specs.Taken.{Taken};

use crate::digits::digit;

// A field of one to `most` digits of a base, as a number.
pub fn number_of(f: &[u8], base: u32, most: usize) -> Option<u32>
    requires { (0 < base) × (base ≤ 16) × (most ≤ 8) }
    ensures { Taken base most f.now (is_some result) (unwrap_or result 0) }
{
    if f.is_empty() || most < f.len() {
        return None;
    }
    let mut n = 0;
    for b in f {
        n = n * base + digit(*b, base)?;
    }
    Some(n)
}
