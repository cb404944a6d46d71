// The records of a log: what a line means.
ghost use Rattle.std.specs.Prelude.{◌≡◌, ◌<◌, ◌≤◌, []};
ghost use Rattle.panel.specs.Record.{record_by, record_of};
ghost use Rattle.panel.specs.Working.Parsed.{meant, number_to};

use text::TAB;
use text::number::number_of;
use text::split::cut;

#[derive(Clone, Copy)]
pub(crate) enum Record {
    Write { address: u8, value: u8 },
    Read { address: u8 },
    Cycles { n: u16 },
    Blanking { level: bool },
    Edge { h: u8, v: u8 },
}

// A field as a number of at most 255.
fn byte(f: &[u8], base: u32, most: usize) -> Option<u8>
    requires { (0 < base) × (base ≤ 16) × (most ≤ 8) }
    ensures { result ≡ number_to 255 base most f.now }
{
    u8::try_from(number_of(f, base, most)?).ok()
}

// A record of one field behind its letter.
fn parse_one(letter: u8, f: &[u8]) -> Option<Record>
    ensures { meant result ≡ record_by letter 2 f.now [] }
{
    match letter {
        b'R' => {
            let address = byte(f, 16, 1)?;
            Some(Record::Read { address })
        }
        b'T' => {
            let n = u16::try_from(number_of(f, 10, 5)?).ok()?;
            Some(Record::Cycles { n })
        }
        b'V' => {
            let b = byte(f, 10, 1)?;
            (b <= 1).then_some(Record::Blanking { level: b == 1 })
        }
        _ => None,
    }
}

// A record of two fields behind its letter.
fn parse_two(letter: u8, f: &[u8], g: &[u8]) -> Option<Record>
    ensures { meant result ≡ record_by letter 3 f.now g.now }
{
    match letter {
        b'W' => {
            let address = byte(f, 16, 1)?;
            let value = byte(g, 16, 2)?;
            Some(Record::Write { address, value })
        }
        b'L' => {
            let h = byte(f, 10, 3)?;
            let v = byte(g, 10, 3)?;
            Some(Record::Edge { h, v })
        }
        _ => None,
    }
}

// What a line means, where it is a record.
pub(crate) fn parse(line: &[u8]) -> Option<Record>
    ensures { meant result ≡ record_of line.now }
{
    let [letter, tab, rest @ ..] = line else {
        return None;
    };
    if *tab != TAB {
        return None;
    }
    let (f, after) = cut(rest, TAB);
    match after {
        None => parse_one(*letter, f),
        // A third tab is no digit, so it makes the last field no number.
        Some(g) => parse_two(*letter, f, g),
    }
}
