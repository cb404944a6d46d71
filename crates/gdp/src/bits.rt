// The bits of `modes` and `signals`, named, read and set only here.
// `modes`: bits 0 to 2 the format; 3 and 4 what runs (nothing, a command that steps, a clear); 5 the clear is 0C; 6 a frame of it
// is open; 7 its first frame is over, which is not in use where the format takes one frame.
// `signals`: bit 1 VB and 4 to 6 the flags, where STATUS has them; 2 and 3 the light pen's sequence (none, waiting, in its frame);
// 0 and 7 not in use.
ghost use Rattle.std.specs.Prelude.{◌≡◌, not, ltb, leb, ◌+◌, ◌*◌, ◌/◌, ◌%◌, ◌<◌, ◌≤◌};
ghost use Rattle.picture.specs.Bit.{digit, bit_at, with_bit};
ghost use Rattle.parts.specs.Format.{format_number, format_at, frames};
ghost use Rattle.rules.specs.Sequence.{no_sequence, light_pen_open};
ghost use Rattle.gdp.specs.Flat.{light_pen_at, format_in, work_in, over_in, light_pen_in};
ghost use Rattle.gdp.specs.Working.Bits.{clear_open_in, stray_light_pen, stray_work, work_bits, put_work, light_pen_bits, put_light_pen, flag_bit, raise_flag, signal_bits, in_use, modes_fall, modes_rise, signals_fall};

use parts::format::{Format, frames_of};
use picture::dot::{bit_at, with_bit};

// What runs: bits 3 to 5 of `modes`.
#[derive(Clone, Copy)]
pub(crate) enum Work {
    Idle = 0,
    Steps = 1,
    Clear = 2,
    Fill = 6,
}

// The light pen's sequence: bits 2 and 3 of `signals`.
#[derive(Clone, Copy)]
pub(crate) enum LightPen {
    Off = 0,
    Waits = 1,
    Open = 2,
}

// The flags of STATUS, each by its bit there, which is that of its mask in CTRL1 too.
#[derive(Clone, Copy)]
pub(crate) enum Flag {
    LightPen = 4,
    Vb = 5,
    Ready = 6,
}

impl Flag {
    pub(crate) fn bit(self) -> u8
        ensures { (result ≡ flag_bit self) × (result < 8) }
    {
        self as u8
    }
}

pub(crate) fn is_no_format(modes: u8) -> bool
    ensures { result ≡ not (ltb (format_in modes) 3) }
{
    2 < modes % 8
}

// The number names no light pen sequence, or VB is high inside the sequence's frame.
#[tactic(auto, using(crate::proofs::Bytes::stray_light_pen_lem))]
pub(crate) fn is_stray_light_pen(signals: u8) -> bool
    ensures { result ≡ stray_light_pen signals }
{
    4 < signals / 2 % 8
}

// The number names no kind of work, or VB is high inside a clear's frame. Bit 4 tells a clear from all else at once.
pub(crate) fn is_stray_work(modes: u8, vb: bool) -> bool
    ensures { result ≡ stray_work vb modes }
{
    if bit_at(modes, 4) {
        return bit_at(modes, 3) | (vb & bit_at(modes, 6));
    }
    false
}

// The format in the lowest three bits. That they name one is refusal 1's affair, so `TryFrom` would test it once more.
#[tactic(auto, unfolding(parts::specs::Format::format_at))]
pub fn format_of(modes: u8) -> Format
    ensures { result ≡ format_at (format_in modes) }
{
    match modes % 8 {
        0 => Format::Ef9366,
        1 => Format::FmatHigh,
        _ => Format::FmatLow,
    }
}

// The byte of a format where nothing runs.
pub(crate) fn modes_of(f: Format) -> u8
    ensures { result ≡ format_number f }
{
    u8::from(f)
}

// A number, not a `Work`: the byte may name none, and the clears are told apart by a bit of their own, so that a reading as `Work` would
// have to be undone in its callers.
pub(crate) fn work_number(modes: u8) -> u8
    ensures { result ≡ work_in modes }
{
    modes / 8 % 4
}

// A clear is inside a frame.
pub(crate) fn is_clear_open(modes: u8) -> bool
    ensures { result ≡ clear_open_in modes }
{
    bit_at(modes, 4) & bit_at(modes, 6)
}

// The clear's frame, open or to come, is the last that its format takes.
pub(crate) fn is_last_frame(modes: u8) -> bool
    ensures { result ≡ leb (frames (format_at (format_in modes))) (modes / 128 + 1) }
{
    frames_of(format_of(modes)) <= modes / 128 + 1
}

// The clear is 0C.
pub(crate) fn is_fill(modes: u8) -> bool
    ensures { result ≡ bit_at 5 modes }
{
    bit_at(modes, 5)
}

pub(crate) fn is_vb_high(signals: u8) -> bool
    ensures { result ≡ bit_at 1 signals }
{
    bit_at(signals, 1)
}

#[tactic(auto, using(crate::proofs::Bytes::light_pen_off_at))]
pub(crate) fn is_light_pen_off(signals: u8) -> bool
    ensures { result ≡ no_sequence (light_pen_at (light_pen_in signals)) }
{
    signals / 4 % 4 == LightPen::Off as u8
}

#[tactic(auto, using(crate::proofs::Bytes::light_pen_open_at))]
pub(crate) fn is_light_pen_open(signals: u8) -> bool
    ensures { result ≡ light_pen_open (light_pen_at (light_pen_in signals)) }
{
    LightPen::Open as u8 <= signals / 4 % 4
}

// A bit's weight where it is high.
pub(crate) fn weighed(bit: bool, weight: u8) -> u8
    ensures { (result ≡ weight * digit bit) × (result ≤ weight) }
{
    if bit { weight } else { 0 }
}

// The bits of STATUS that `signals` gives: VB, the flags, and the OR of the flags.
pub(crate) fn status_bits(signals: u8) -> u8
    ensures { (result ≡ signal_bits signals) × (result ≤ 242) }
{
    let flags = signals / 16 % 8;
    signals / 2 % 2 * 2 + flags * 16 + weighed(flags != 0, 128)
}

// The bits in use.
pub(crate) fn in_use(signals: u8) -> u8
    ensures { result ≡ in_use signals }
{
    signals / 2 % 64 * 2
}

pub(crate) fn without_flags(signals: u8) -> u8
    ensures { result ≡ signals % 16 }
{
    signals % 16
}

pub(crate) fn with_work(modes: u8, work: Work) -> u8
    ensures { result ≡ put_work (work_bits work) modes }
{
    modes % 8 + 8 * work as u8
}

// A clear's byte with bit 7 made 0 where it is not in use.
pub(crate) fn clear_modes(modes: u8) -> u8
    ensures { result ≡ modes % 128 + 128 * over_in modes }
{
    if frames_of(format_of(modes)) <= 1 {
        return modes % 128;
    }
    modes
}

pub(crate) fn with_light_pen(signals: u8, pen: LightPen) -> u8
    ensures { result ≡ put_light_pen (light_pen_bits pen) signals }
{
    signals % 4 + 4 * pen as u8 + signals / 16 * 16
}

pub(crate) fn with_vb(signals: u8, level: bool) -> u8
    ensures { result ≡ with_bit level 1 signals }
{
    with_bit(signals, 1, level)
}

// A flag raised where its mask lets it.
pub(crate) fn with_flag(signals: u8, flag: Flag, mask: bool) -> u8
    ensures { result ≡ raise_flag (flag_bit flag) mask signals }
{
    if mask {
        with_bit(signals, flag.bit(), true)
    } else {
        signals
    }
}

// A fall of VB opens a frame of a clear that waits for one, and of a light pen sequence that waits.
pub(crate) fn modes_at_fall(modes: u8) -> u8
    ensures { result ≡ modes_fall modes }
{
    if modes / 8 % 4 == Work::Clear as u8 {
        return with_bit(modes, 6, true);
    }
    modes
}

// A rise of VB that does not end the clear ends its first frame, if that is open.
pub(crate) fn modes_at_rise(modes: u8) -> u8
    ensures { result ≡ modes_rise modes }
{
    if is_clear_open(modes) {
        return modes % 64 + 128;
    }
    modes
}

pub(crate) fn signals_at_fall(signals: u8) -> u8
    ensures { result ≡ signals_fall signals }
{
    if signals / 4 % 4 == LightPen::Waits as u8 {
        return with_light_pen(with_vb(signals, false), LightPen::Open);
    }
    with_vb(signals, false)
}
