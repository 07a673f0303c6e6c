// The record, its half-read part: what is half read, laid flat as a case's number and its parameters. No case of an enum crosses to C.
// It uses the paper alone; docs/RECORD.md has the numbers.
#![tactic(auto)]

ghost use Rattle.std.specs.Prelude.{◌≡◌};
ghost use Rattle.record_half.specs.Slots.{bare, word_slots, batch_slots, half_slots};

use paper::{Batch, Columns, Half, Word};

// The case's number, and its parameters from the left: bytes in a, b, c, d and 16-bit ones in p, q, r, s; and the columns of a download
// as they come. What a case does not use is 0.
#[derive(Clone, Copy, Default)]
pub struct Slots {
    pub case: u8,
    pub a: u8,
    pub b: u8,
    pub c: u8,
    pub d: u8,
    pub p: u16,
    pub q: u16,
    pub r: u16,
    pub s: u16,
    pub columns: Columns,
}

// A case that uses nothing.
fn bare(case: u8) -> Slots
    ensures { result ≡ bare case }
{
    Slots {
        case,
        ..Slots::default()
    }
}

// An awaited 16-bit parameter in a case: its number in a, the window in b, its low byte in c, the parameters before it in p, q, r.
#[tactic(auto, unfolding(crate::specs::Slots::word_slots))]
fn word_slots(case: u8, low: u8, word: Word) -> Slots
    ensures { result ≡ word_slots case low word }
{
    let awaited = Slots {
        c: low,
        ..bare(case)
    };
    match word {
        Word::CursorX => awaited,
        Word::CursorY { x } => Slots {
            a: 1,
            p: x,
            ..awaited
        },
        Word::WindowLeft { a } => Slots {
            a: 2,
            b: a,
            ..awaited
        },
        Word::WindowTop { a, left } => Slots {
            a: 3,
            b: a,
            p: left,
            ..awaited
        },
        Word::WindowWidth { a, left, top } => Slots {
            a: 4,
            b: a,
            p: left,
            q: top,
            ..awaited
        },
        Word::WindowHeight {
            a,
            left,
            top,
            width,
        } => Slots {
            a: 5,
            b: a,
            p: left,
            q: top,
            r: width,
            ..awaited
        },
        Word::ImageWidth => Slots { a: 6, ..awaited },
        Word::ImageHeight { width } => Slots {
            a: 7,
            p: width,
            ..awaited
        },
    }
}

// A case of a define: its first code in a, the one that it is at in b, its last in c, the note of a drop in d, and the columns.
#[tactic(auto, unfolding(crate::specs::Slots::batch_slots, crate::specs::Slots::note_number))]
fn batch_slots(case: u8, batch: Batch, dropped: bool, columns: Columns) -> Slots
    ensures { result ≡ batch_slots case batch dropped columns }
{
    Slots {
        a: batch.first,
        b: batch.code,
        c: batch.last,
        d: u8::from(dropped),
        columns,
        ..bare(case)
    }
}

// What is half read, laid flat. A setting's number is its place in the paper's list.
impl From<Half> for Slots {
    ghost from_gives = { λ half slots. slots ≡ half_slots half };

    #[tactic(auto, unfolding(crate::specs::Slots::half_slots, crate::specs::Slots::key_number))]
    fn from(half: Half) -> Slots {
        match half {
            Half::Nothing => bare(0),
            Half::Escape => bare(1),
            Half::Unit => bare(2),
            Half::Group => bare(3),
            Half::Actions => bare(4),
            Half::Images => bare(5),
            Half::Characters => bare(6),
            Half::Windows => bare(7),
            Half::Value(key) => Slots {
                a: key as u8,
                ..bare(8)
            },
            Half::Rest { left } => Slots { a: left, ..bare(9) },
            Half::DownloadA => bare(10),
            Half::DownloadFrom => bare(11),
            Half::DownloadTo { from } => Slots {
                a: from,
                ..bare(12)
            },
            Half::GlyphWidth { batch, dropped } => batch_slots(
                13,
                batch,
                dropped,
                Columns::default(),
            ),
            Half::GlyphByte {
                batch,
                dropped,
                columns,
            } => batch_slots(14, batch, dropped, columns),
            Half::Low(word) => word_slots(15, 0, word),
            Half::High { word, low } => word_slots(16, low, word),
            Half::ImageKind { width, height } => Slots {
                p: width,
                q: height,
                ..bare(17)
            },
            Half::ImageData {
                width,
                height,
                column,
                row,
            } => Slots {
                p: width,
                q: height,
                r: column,
                s: row,
                ..bare(18)
            },
            Half::EnlargeX => bare(19),
            Half::EnlargeY { x } => Slots { a: x, ..bare(20) },
            Half::SelectA => bare(21),
            Half::WindowA => bare(22),
            Half::WindowB { a } => Slots { a, ..bare(23) },
            Half::EraseA => bare(24),
            Half::EraseCode { a } => Slots { a, ..bare(25) },
        }
    }
}
