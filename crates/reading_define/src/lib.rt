// What a byte gives to a download that is half read: document 01, "How bytes are read", and order 2's columns.
// There is no state and no memory here, and it uses the paper alone. The columns come one by one into their places; the last one makes
// the download whole.
#![tactic(auto)]

ghost use Rattle.std.specs.Prelude.{◌≡◌, ◌<◌};
ghost use Rattle.paper.specs.Reading.{no_columns, with_column, read_column};

use paper::{Batch, Columns, Half, Reading};

// So many columns of a download are awaited, and none has come.
pub fn no_columns(width: u8) -> Columns
    ensures { result ≡ no_columns width }
{
    Columns {
        width,
        ..Columns::default()
    }
}

// A download's columns with one more, in its place.
#[tactic(auto, unfolding(paper::specs::Reading::with_column))]
pub fn with_column(c: Columns, b: u8) -> Columns
    requires { c.come < 7 }
    ensures { result ≡ with_column c b }
{
    let mut t = c;
    t.come += 1;
    // a field each, for speed: an array in the state would be copied several times for each byte
    match c.come {
        0 => t.c0 = b,
        1 => t.c1 = b,
        2 => t.c2 = b,
        3 => t.c3 = b,
        4 => t.c4 = b,
        5 => t.c5 = b,
        _ => t.c6 = b,
    }
    t
}

// A download's column has come: the next one is awaited, or it was the last.
#[tactic(auto, unfolding(paper::specs::Reading::read_column))]
pub fn read_column(batch: Batch, dropped: bool, columns: Columns) -> Reading
    ensures { result ≡ read_column batch dropped columns }
{
    if columns.come < columns.width {
        Reading::More(Half::GlyphByte {
            batch,
            dropped,
            columns,
        })
    } else {
        Reading::GlyphEnd {
            batch,
            dropped,
            columns,
        }
    }
}
