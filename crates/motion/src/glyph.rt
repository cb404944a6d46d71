// The glyphs of a lent character table, as parts of it.
ghost use Rattle.std.specs.Prelude.{◌≡◌, ◌+◌, ◌-◌, ◌*◌, ◌≤◌, length};
ghost use Rattle.motion.specs.Glyph.{glyph_of, solid_glyph, inked};

// The five bytes of a code, handed on as a part of a table that reaches so far.
pub fn glyph(table: &[u8], code: u8) -> &[u8; 5]
    requires { (32 ≤ code) × (5 * (code - 32) + 5 ≤ length table.now) }
    ensures { result.now ≡ glyph_of table.now code }
{
    let a = 5 * (code as usize - 32);
    table[a..a + 5].as_array().unwrap()
}

// Every dot, as 0A and the block 0B have it.
pub fn solid_glyph() -> [u8; 5]
    ensures { result ≡ solid_glyph }
{
    [255; 5]
}

// Whether a glyph's five bytes have the dot of a column and a row. No column from 5 on has one.
pub fn has_ink(part: &[u8; 5], column: u16, row: u16) -> bool
    ensures { result ≡ inked part.now column row }
{
    if column < 5 {
        let at = column as usize;
        (part[at] >> (row % 8)) % 2 == 1
    } else {
        false
    }
}
