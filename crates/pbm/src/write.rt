// A picture written as a file into a lent buffer.
ghost use Rattle.std.specs.Prelude.{List, [], ◌∷◌, ◌++◌, ◌≡◌, ℕ, ◌+◌, ◌*◌, ◌/◌, ◌%◌, ◌≤◌, ◌<◌, length};
ghost use Rattle.picture.specs.Bit.{bit_at};
ghost use Rattle.text.specs.Pieces.{line_feed};
ghost use Rattle.text.specs.Working.Writes.{Room, Writes};
ghost use Rattle.pbm.specs.File.{head, sign, signs, file_lines, body};
ghost use Rattle.pbm.specs.Calls.{file_of, written_out, told, Leaves};
ghost use Rattle.pbm.specs.Working.Bytes.{eight_signs};

use parts::format::{Format, bytes_of, height_of, width_of};
use parts::refusal::Refusal;
use picture::dot::bit_at;
use text::LINE_FEED;
use text::write::Writer;

// The sign of the dot that is bit k of a byte.
#[tactic(auto, unfolding(crate::specs::File::sign))]
fn put_sign(w: &mut Writer<'_>, v: u8, k: u8)
    requires { (k < 8) × Room 1 w.old }
    ensures { Writes w.old (sign (bit_at k v) ∷ []) w.new }
{
    let sign = if bit_at(v, k) { b'1' } else { b'0' };
    w.put(sign);
}

// The signs of a byte.
fn put_eight(w: &mut Writer<'_>, v: u8)
    requires { Room 8 w.old }
    ensures { Writes w.old (eight_signs v) w.new }
{
    for k in 0..8 {
        put_sign(w, v, k);
    }
}

// A line of the file: the sixty-four dots of eight bytes.
fn put_line(w: &mut Writer<'_>, eight: &[u8])
    requires { (length eight.now ≡ 8) × Room 65 w.old }
    ensures { Writes w.old (signs eight.now 0 64 ++ (line_feed ∷ [])) w.new }
{
    for byte in eight {
        put_eight(w, *byte);
    }
    w.put(LINE_FEED);
}

// A line of the picture, which has a line of the file for every eight bytes.
fn put_lines(w: &mut Writer<'_>, line: &[u8])
    requires { Room (65 * (length line.now / 8)) w.old }
    ensures { Writes w.old (file_lines line.now 0 (length line.now / 8)) w.new }
{
    for eight in line.chunks_exact(8) {
        put_line(w, eight);
    }
}

// The whole picture, whose lines have n lines of the file each. The top one is the first of the file and the last of the picture.
fn put_body(w: &mut Writer<'_>, pic: &[u8], n: usize)
    requires lines { (0 < n) × (n ≤ 8) × (length pic.now % (8 * n) ≡ 0) }
    requires room { Room (length pic.now / (8 * n) * (65 * n)) w.old }
    ensures { Writes w.old (body (64 * n) (length pic.now / (8 * n)) pic.now) w.new }
{
    for line in pic.rchunks_exact(8 * n) {
        put_lines(w, line);
    }
}

// P1, and the size.
#[tactic(auto, unfolding(crate::specs::File::head))]
fn put_head(w: &mut Writer<'_>, width: u16, height: u16)
    requires { Room 15 w.old }
    ensures { Writes w.old (head width height) w.new }
{
    w.put_all([b'P', b'1', LINE_FEED]);
    w.put_decimal(u32::from(width));
    w.put(b' ');
    w.put_decimal(u32::from(height));
    w.put(LINE_FEED)
}

// The length of a format's file, whatever the picture.
#[tactic(auto, using(crate::proofs::Files::file_length), unfolding(parts::specs::Format::width, parts::specs::Format::height))]
pub fn file_bytes(f: Format) -> u32
    ensures { (pic : List ℕ) → result ≡ length (file_of f pic) }
{
    match f {
        Format::Ef9366 => 133131,
        Format::FmatHigh => 266251,
        Format::FmatLow => 66571,
    }
}

// Writes the picture of a format as a file at the buffer's start and says how long it is; later bytes stay.
pub fn write_pbm(format: Format, pic: &[u8], out: &mut [u8]) -> Result<u32, Refusal>
    ensures { Leaves (written_out format pic.now out.old) (told result) out.new }
{
    if pic.len() != bytes_of(format) {
        return Err(Refusal::BadPicture);
    }
    let n = file_bytes(format);
    if out.len() < n as usize {
        return Err(Refusal::ShortBuffer);
    }
    let width = width_of(format);
    let height = height_of(format);
    let mut w = Writer { out, at: 0 };
    put_head(&mut w, width, height);
    put_body(&mut w, pic, usize::from(width / 64));
    Ok(n)
}
