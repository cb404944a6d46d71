// The lines that the panel writes.
ghost use Rattle.std.specs.Prelude.{◌+◌, ◌≤◌, ◌<◌, length};
ghost use Rattle.parts.specs.Refusal.{refusal_number};
ghost use Rattle.panel.specs.Answer.{line_g, line_r, line_t, line_e, line_p};
ghost use Rattle.text.specs.Working.Writes.{Room, Writes};

use parts::refusal::Refusal;
use text::digits::hex_digit;
use text::write::Writer;
use text::{LINE_FEED, TAB};

// G, 9366.
pub(crate) fn put_g(w: &mut Writer<'_>)
    requires { Room 7 w.old }
    ensures { Writes w.old line_g w.new }
{
    w.put_letter(b'G');
    w.put_decimal(9366);
    w.put(LINE_FEED)
}

// R, address, two-digit hex value.
pub(crate) fn put_r(w: &mut Writer<'_>, address: u8, value: u16)
    requires { (address < 16) × Room 7 w.old }
    ensures { Writes w.old (line_r address value) w.new }
{
    w.put_all([
        b'R',
        TAB,
        hex_digit(address),
        TAB,
        hex_digit((value / 16 % 16) as u8),
        hex_digit((value % 16) as u8),
        LINE_FEED,
    ])
}

// T, cycles used.
pub(crate) fn put_t(w: &mut Writer<'_>, n: u16)
    requires { Room 8 w.old }
    ensures { Writes w.old (line_t n) w.new × (w.new.at ≤ w.old.at + 8) }
{
    w.put_letter(b'T');
    w.put_decimal(u32::from(n));
    w.put(LINE_FEED)
}

// E, line number, refusal number.
pub(crate) fn put_e(w: &mut Writer<'_>, line: u32, why: Refusal)
    requires { (line < 100000) × Room 14 w.old }
    ensures { Writes w.old (line_e line (refusal_number why)) w.new × (w.new.at ≤ w.old.at + 11) }
{
    w.put_pair(b'E', line, u32::from(u8::from(why)))
}

// P, x, y.
pub(crate) fn put_p(w: &mut Writer<'_>, x: u16, y: u16)
    requires { (x < 1000) × (y < 1000) × Room 14 w.old }
    ensures { Writes w.old (line_p x y) w.new × (w.new.at ≤ w.old.at + 10) }
{
    w.put_pair(b'P', u32::from(x), u32::from(y))
}
