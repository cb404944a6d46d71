// The search for a byte.
ghost use Rattle.std.specs.Prelude.{◌<◌, length, IfSome, unwrap_or};
ghost use Rattle.text.specs.Found.{Found};

// The place of the first byte b, where there is one.
pub fn find(s: &[u8], b: u8) -> Option<usize>
    ensures found { Found s.now 0 b (unwrap_or result (length s.now)) }
    ensures within { IfSome result (λ r. r < length s.now) }
{
    s.iter().position(|x| *x == b)
}
