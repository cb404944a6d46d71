// A file read into a lent picture.
ghost use Rattle.std.specs.Prelude.{true, ◌≡◌, ◌*◌, length};
ghost use Rattle.pbm.specs.Contents.{taken, are_dots, packed, shown};
ghost use Rattle.pbm.specs.Calls.{read_in, told_read, Leaves};
ghost use Rattle.pbm.specs.Working.Left.{behind};

use crate::head::read_head;
use crate::signs::take_eight;
use parts::format::{Format, bytes_of, height_of, width_of};
use parts::refusal::Refusal;

// Whether what is left of a file begins with dots, eight for each of n bytes. The byte that they show is not asked for yet.
fn are_dots(left: &[u8], n: usize) -> bool
    ensures { result ≡ are_dots (taken (8 * n) left.now) }
{
    let mut rest = left;
    for _ in 0..n {
        let Some((_, behind)) = take_eight(rest) else {
            return false;
        };
        rest = behind;
    }
    true
}

// Shows a line of the picture, and says what is left of the file behind its dots.
fn show_line<'a>(left: &'a [u8], line: &mut [u8]) -> &'a [u8]
    requires { are_dots (taken (8 * length line.old) left.now) ≡ true }
    ensures shown { line.new ≡ packed (length line.old) (taken (8 * length line.old) left.now) }
    ensures left { result.now ≡ behind (8 * length line.old) left.now }
{
    let mut rest = left;
    for byte in line.iter_mut() {
        let (shown, behind) = take_eight(rest).unwrap();
        *byte = shown as u8;
        rest = behind;
    }
    rest
}

// Shows the whole picture, h lines of n bytes, the top one first. Each line by its place: of chunks that are lent to be written no
// proof knows what they hold behind the loop.
fn show(left: &[u8], pic: &mut [u8], n: usize, h: usize)
    requires whole { length pic.old ≡ h * n }
    requires dots { are_dots (taken (h * (8 * n)) left.now) ≡ true }
    ensures { pic.new ≡ shown (8 * n) h (taken (h * (8 * n)) left.now) }
{
    let mut rest = left;
    for y in (0..h).rev() {
        rest = show_line(rest, &mut pic[y * n..y * n + n]);
    }
}

// Reads a file into a picture of a format. A refusal writes nothing: every dot is looked at before the first is written.
pub fn read_pbm(format: Format, file: &[u8], pic: &mut [u8]) -> Result<(), Refusal>
    ensures { Leaves (read_in format file.now pic.old) (told_read result) pic.new }
{
    if pic.len() != bytes_of(format) {
        return Err(Refusal::BadPicture);
    }
    let width = width_of(format);
    let height = height_of(format);
    let dots = read_head(file, width, height)?;
    if !are_dots(dots, pic.len()) {
        return Err(Refusal::BadDots);
    }
    show(dots, pic, usize::from(width / 8), usize::from(height));
    Ok(())
}
