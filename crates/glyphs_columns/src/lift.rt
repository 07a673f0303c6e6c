// How the dots of a glyph's column are placed on a row of memory.
// It is a file of its own, since the definitions of its contracts name the type.
ghost use Rattle.std.specs.Prelude.{◌≡◌, ◌*◌, ◌/◌, ◌^◌, ◌≤◌};

// So many dots down, and up again. What they leave is blank.
#[derive(Clone, Copy)]
pub struct Lift {
    pub down: u8,
    pub up: u8,
    // one dot down at most, and no further up
    pub ghost one: { down ≤ 1 },
    pub ghost back: { up ≤ down },
}

impl Lift {
    ghost use Rattle.glyphs_columns.specs.Columns.{framed_on, placing_of};

    // A framed glyph's: on row 0 the blank dot is below, on any other above.
    fn framed_on(row: usize) -> Self
        ensures { result ≡ framed_on row }
    {
        Lift {
            down: 1,
            up: u8::from(row == 0),
        }
    }

    // Any glyph's: one that is not framed stays as it is.
    pub fn placing(framed: bool, row: usize) -> Self
        ensures { result ≡ placing_of framed row }
    {
        if framed {
            Lift::framed_on(row)
        } else {
            Lift { down: 0, up: 0 }
        }
    }

    // A glyph's column so placed. It has no test, so that a loop of it has none.
    pub fn placed(self, v: u8) -> u8
        ensures { result ≡ v / 2 ^ self.down * 2 ^ self.up }
    {
        (v >> self.down) << self.up
    }
}
