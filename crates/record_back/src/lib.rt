// The record's half-read part, read back: what is half read, from its case's number and its parameters.
// It uses the paper, and record_half for the slots; docs/RECORD.md has the numbers.
// Functions and no `From`: an impl of it for the paper's and record_half's types could stand in record_half alone, and the edits record_back/..
// are named after this crate.
#![tactic(auto)]

ghost use Rattle.std.specs.Prelude.{◌≡◌};
ghost use Rattle.record_half.specs.Slots.{key_of, word_of, half_of};

use paper::{Batch, Half, Key, Word};
use record_half::Slots;

// The setting of a number; what numbers none is taken for the first, whose number is another.
#[tactic(auto, unfolding(record_half::specs::Slots::key_of))]
fn key_of(n: u8) -> Key
    ensures { result ≡ key_of n }
{
    match n {
        1 => Key::Codes,
        2 => Key::Caret,
        3 => Key::Brightness,
        4 => Key::Reverse,
        5 => Key::Speed,
        6 => Key::Mixing,
        7 => Key::Width,
        8 => Key::Write,
        9 => Key::Switch,
        _ => Key::Charset,
    }
}

// The awaited 16-bit parameter that slots say.
#[tactic(auto, unfolding(record_half::specs::Slots::word_of))]
fn word_of(n: u8, a: u8, p: u16, q: u16, r: u16) -> Word
    ensures { result ≡ word_of n a p q r }
{
    match n {
        1 => Word::CursorY { x: p },
        2 => Word::WindowLeft { a },
        3 => Word::WindowTop { a, left: p },
        4 => Word::WindowWidth { a, left: p, top: q },
        5 => Word::WindowHeight {
            a,
            left: p,
            top: q,
            width: r,
        },
        6 => Word::ImageWidth,
        7 => Word::ImageHeight { width: p },
        _ => Word::CursorX,
    }
}

// What is half read, from its slots; what numbers no case is taken for nothing, whose number is another.
#[tactic(auto, unfolding(record_half::specs::Slots::half_of))]
pub fn half_of(t: Slots) -> Half
    ensures { result ≡ half_of t }
{
    let Slots {
        case,
        a,
        b,
        c,
        d,
        p,
        q,
        r,
        s,
        columns,
    } = t;
    // a define's codes, and its note of a drop: a byte other than 1 is taken for none, whose number is another
    let batch = Batch {
        first: a,
        code: b,
        last: c,
    };
    let dropped = d == 1;
    match case {
        1 => Half::Escape,
        2 => Half::Unit,
        3 => Half::Group,
        4 => Half::Actions,
        5 => Half::Images,
        6 => Half::Characters,
        7 => Half::Windows,
        8 => Half::Value(key_of(a)),
        9 => Half::Rest { left: a },
        10 => Half::DownloadA,
        11 => Half::DownloadFrom,
        12 => Half::DownloadTo { from: a },
        13 => Half::GlyphWidth { batch, dropped },
        14 => Half::GlyphByte {
            batch,
            dropped,
            columns,
        },
        15 => Half::Low(word_of(a, b, p, q, r)),
        16 => Half::High {
            word: word_of(a, b, p, q, r),
            low: c,
        },
        17 => Half::ImageKind {
            width: p,
            height: q,
        },
        18 => Half::ImageData {
            width: p,
            height: q,
            column: r,
            row: s,
        },
        19 => Half::EnlargeX,
        20 => Half::EnlargeY { x: a },
        21 => Half::SelectA,
        22 => Half::WindowA,
        23 => Half::WindowB { a },
        24 => Half::EraseA,
        25 => Half::EraseCode { a },
        _ => Half::Nothing,
    }
}
