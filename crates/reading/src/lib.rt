// What a byte gives to a half-read command: document 01, "How bytes are read".
// There is no state and no memory here: a command that is whole, an image byte with its place, a download that has come whole, or
// what is awaited next.
// It uses the paper and the numbers, reading_codes and reading_groups for a byte of the code, reading_words for one of a parameter and
// reading_define for one of a download. `read` is its one call, with an arm for each case of what is half read.
#![tactic(auto)]

ghost use Rattle.std.specs.Prelude.{◌≡◌, true};
ghost use Rattle.paper.specs.Bounds.{half_ok};
ghost use Rattle.paper.specs.Reading.{read_of};

use paper::{Batch, Command, Half, Module, Reading};

// What a byte gives to what is half read.
#[tactic(auto, unfolding(paper::specs::Reading::read_of))]
pub fn read(g: Module, half: Half, b: u8) -> Reading
    requires { half_ok g half ≡ true }
    ensures { result ≡ read_of g half b }
{
    match half {
        Half::Nothing => reading_codes::read_first(g, b),
        Half::Escape => reading_codes::read_escape(g, b),
        Half::Unit => reading_groups::read_unit(b),
        Half::Group => reading_groups::read_group(b),
        Half::Actions => reading_groups::read_actions(b),
        Half::Images => reading_groups::read_images(b),
        Half::Characters => reading_groups::read_characters(g, b),
        Half::Windows => reading_groups::read_windows(b),
        Half::Value(key) => Reading::Whole(Command::Set { key, value: b }),
        Half::Rest { left } => reading_words::read_rest(left),
        Half::DownloadA => reading_codes::more_if(b == 1, Half::DownloadFrom),
        Half::DownloadFrom => reading_codes::more_if(0x20 <= b, Half::DownloadTo { from: b }),
        Half::DownloadTo { from } => reading_codes::more_if(
            from <= b,
            Half::GlyphWidth {
                batch: Batch {
                    first: from,
                    code: from,
                    last: b,
                },
                dropped: false,
            },
        ),
        Half::GlyphWidth { batch, dropped } => reading_codes::more_if(
            matches!(b, 5 | 7),
            Half::GlyphByte {
                batch,
                dropped,
                columns: reading_define::no_columns(b),
            },
        ),
        Half::GlyphByte {
            batch,
            dropped,
            columns,
        } => reading_define::read_column(batch, dropped, reading_define::with_column(columns, b)),
        Half::Low(word) => Reading::More(Half::High { word, low: b }),
        Half::High { word, low } => reading_words::read_word(g, word, numbers::word16(low, b)),
        Half::ImageKind { width, height } => reading_codes::more_if(
            b == 1,
            Half::ImageData {
                width,
                height,
                column: 0,
                row: 0,
            },
        ),
        Half::ImageData {
            width,
            height,
            column,
            row,
        } => reading_words::read_image(width, height, column, row, b),
        Half::EnlargeX => Reading::More(Half::EnlargeY { x: b }),
        Half::EnlargeY { x } => Reading::Whole(Command::Enlarge { x, y: b }),
        Half::SelectA => Reading::Whole(Command::Select(b)),
        Half::WindowA => reading_codes::more_if((1..=4).contains(&b), Half::WindowB { a: b }),
        Half::WindowB { a } => reading_words::read_window_b(a, b),
        Half::EraseA => Reading::More(Half::EraseCode { a: b }),
        Half::EraseCode { a } => Reading::Whole(Command::Erase { a, code: b }),
    }
}
