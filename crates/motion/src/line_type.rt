// The line types, as a table of periods and on/off masks.
ghost use Rattle.std.specs.Prelude.{◌≡◌, ℕ};
ghost use Rattle.motion.specs.LineType.{line_on};
ghost use Rattle.motion.specs.Working.Masks.{dashed, Repeats};

// A period, and the dots of one period: bit j is 1 where dot j is on.
#[derive(Clone, Copy)]
pub struct LineType {
    pub period: u16,
    pub mask: u16,
}

const LINE_TYPES: [LineType; 4] = [
    LineType {
        period: 1,
        mask: 0x0001,
    },
    LineType {
        period: 4,
        mask: 0x0003,
    },
    LineType {
        period: 8,
        mask: 0x000f,
    },
    LineType {
        period: 16,
        mask: 0x33ff,
    },
];

// The line type in bits 0 and 1 of CTRL2, looked up once for a run of dots.
pub fn line_type(ctrl2: u8) -> LineType
    ensures { Repeats result × ((i : ℕ) → dashed result i ≡ line_on ctrl2 i) }
{
    LINE_TYPES[ctrl2 as usize % 4]
}

// Whether dot i of a vector is on. The period is a power of two, so its remainder is a mask.
pub fn is_on(t: LineType, i: u16) -> bool
    requires { Repeats t }
    ensures { result ≡ dashed t i }
{
    let j = i & (t.period - 1);
    (t.mask >> j) % 2 == 1
}
