// Text written into a lent buffer, one piece behind the other.
ghost use Rattle.std.specs.Prelude.{◌≡◌, [], ◌∷◌, ◌++◌, ◌+◌, ◌≤◌, ◌<◌, length};
ghost use Rattle.text.specs.Pieces.{tab, line_feed};
ghost use Rattle.text.specs.Numbers.{decimal};

use crate::{LINE_FEED, TAB};

// A digit as text.
fn digit(d: u32) -> u8
    requires { d < 10 }
    ensures { result ≡ 48 + d }
{
    b'0' + d as u8
}

// A lent buffer, and the place in it behind what is written.
#[derive(Drop)]
pub struct Writer<'a> {
    pub out: &'a mut [u8],
    pub at: usize,
}

impl<'a> Writer<'a> {
    ghost use Rattle.text.specs.Working.Writes.{Room, Writes};

    // One byte.
    pub fn put(&mut self, b: u8)
        requires { Room 1 self.old }
        ensures { Writes self.old (b ∷ []) self.new }
    {
        self.out[self.at] = b;
        self.at += 1;
    }

    // Some bytes, at once.
    pub fn put_all<const N: usize>(&mut self, bytes: [u8; N])
        requires { Room N self.old }
        ensures { Writes self.old bytes.entry self.new }
    {
        self.out[self.at..self.at + N].copy_from_slice(&bytes);
        self.at += N;
    }

    // A number below 1,000 in decimal, without leading zeros.
    fn put_three(&mut self, n: u32)
        requires { (n < 1000) × Room (length (decimal n)) self.old }
        ensures { Writes self.old (decimal n) self.new }
    {
        if 100 <= n {
            return self.put_all([digit(n / 100), digit(n / 10 % 10), digit(n % 10)]);
        }
        if 10 <= n {
            return self.put_all([digit(n / 10), digit(n % 10)]);
        }
        self.put(digit(n))
    }

    // A number below 100,000. Coordinates, which are most of what is written, end after three digits.
    #[inline(always)]
    pub fn put_decimal(&mut self, n: u32)
        requires { (n < 100000) × Room 5 self.old }
        ensures { Writes self.old (decimal n) self.new × (self.new.at ≤ self.old.at + 5) }
    {
        if n < 1000 {
            return self.put_three(n);
        }
        self.put_three(n / 100);
        self.put_all([digit(n / 10 % 10), digit(n % 10)])
    }

    // A letter and a tab.
    pub fn put_letter(&mut self, letter: u8)
        requires { Room 2 self.old }
        ensures { Writes self.old (letter ∷ tab ∷ []) self.new }
    {
        self.put_all([letter, TAB])
    }

    // A line of a letter and two numbers, by a writer of its own: its place stays in a register.
    #[inline(never)]
    pub fn put_pair(&mut self, letter: u8, m: u32, n: u32)
        requires { (m < 100000) × (n < 100000) × Room 14 self.old }
        ensures { Writes self.old (letter ∷ tab ∷ (decimal m ++ (tab ∷ (decimal n ++ (line_feed ∷ []))))) self.new }
    {
        let mut w = Writer {
            out: &mut *self.out,
            at: self.at,
        };
        w.put_letter(letter);
        w.put_decimal(m);
        w.put(TAB);
        w.put_decimal(n);
        w.put(LINE_FEED);
        self.at = w.at;
    }
}
