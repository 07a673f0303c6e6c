// What a byte gives to a parameter that takes several bytes, or that decides how a command goes on: document 01, "How bytes are read".
// There is no state and no memory here. It uses the paper, and reading_codes for what is awaited next.
#![tactic(auto)]

ghost use Rattle.std.specs.Prelude.{◌≡◌};
ghost use Rattle.paper.specs.Reading.{read_rest, read_window_b, read_word, read_image};

use paper::{Command, Half, Module, Reading, Word};

// A byte of a command that is not checked: the last one makes it whole.
#[tactic(auto, unfolding(paper::specs::Reading::read_rest))]
pub fn read_rest(left: u8) -> Reading
    ensures { result ≡ read_rest left }
{
    if left <= 1 {
        Reading::Whole(Command::Uncarried)
    } else {
        reading_codes::more_rest(left - 1)
    }
}

// Whether window a is cancelled or defined.
#[tactic(auto, unfolding(paper::specs::Reading::read_window_b))]
pub fn read_window_b(a: u8, b: u8) -> Reading
    ensures { result ≡ read_window_b a b }
{
    if b == 0 {
        Reading::Whole(Command::Cancel(a))
    } else {
        reading_codes::more_if(b == 1, Half::Low(Word::WindowLeft { a }))
    }
}

// A 16-bit parameter that has come whole. An image's size is tested here, with its high byte.
#[tactic(auto, unfolding(paper::specs::Reading::read_word))]
pub fn read_word(g: Module, word: Word, n: u16) -> Reading
    ensures { result ≡ read_word g word n }
{
    match word {
        Word::CursorX => reading_codes::more_word(Word::CursorY { x: n }),
        Word::CursorY { x } => Reading::Whole(Command::CursorSet { x, y: n }),
        Word::WindowLeft { a } => reading_codes::more_word(Word::WindowTop { a, left: n }),
        Word::WindowTop { a, left } => reading_codes::more_word(Word::WindowWidth {
            a,
            left,
            top: n,
        }),
        Word::WindowWidth { a, left, top } => reading_codes::more_word(Word::WindowHeight {
            a,
            left,
            top,
            width: n,
        }),
        Word::WindowHeight {
            a,
            left,
            top,
            width,
        } => Reading::Whole(Command::Define {
            a,
            left,
            top,
            width,
            height: n,
        }),
        Word::ImageWidth => reading_codes::more_if(
            (1..=g.columns).contains(&usize::from(n)),
            Half::Low(Word::ImageHeight { width: n }),
        ),
        Word::ImageHeight { width } => reading_codes::more_if(
            (1..=g.rows).contains(&usize::from(n)),
            Half::ImageKind { width, height: n },
        ),
    }
}

// An image's byte and its place: column by column, top first.
#[tactic(auto, unfolding(paper::specs::Reading::read_image))]
pub fn read_image(width: u16, height: u16, column: u16, row: u16, b: u8) -> Reading
    ensures { result ≡ read_image width height column row b }
{
    if usize::from(row) + 1 < usize::from(height) {
        Reading::ImageByte {
            column,
            row,
            byte: b,
            next: Half::ImageData {
                width,
                height,
                column,
                row: row + 1,
            },
        }
    } else if usize::from(column) + 1 < usize::from(width) {
        Reading::ImageByte {
            column,
            row,
            byte: b,
            next: Half::ImageData {
                width,
                height,
                column: column + 1,
                row: 0,
            },
        }
    } else {
        Reading::ImageEnd {
            column,
            row,
            byte: b,
        }
    }
}
