// What a byte of a command's code gives after 1Fh: document 01, "How bytes are read".
// There is no state and no memory here. It uses the paper, and reading_codes for what is awaited next. Each function decides one place in
// a code.
#![tactic(auto)]

ghost use Rattle.std.specs.Prelude.{◌≡◌};
ghost use Rattle.paper.specs.Reading.{read_unit, read_group, read_actions, read_images, read_characters, read_windows};

use paper::{Command, Half, Key, Module, Reading, Word};

// After 1Fh.
#[tactic(auto, unfolding(paper::specs::Reading::read_unit))]
pub fn read_unit(b: u8) -> Reading
    ensures { result ≡ read_unit b }
{
    match b {
        0x01..=0x03 => Reading::Whole(Command::Mode(b)),
        0x24 => reading_codes::more_word(Word::CursorX),
        0x28 => Reading::More(Half::Group),
        0x43 => reading_codes::more_value(Key::Caret),
        0x58 => reading_codes::more_value(Key::Brightness),
        0x72 => reading_codes::more_value(Key::Reverse),
        0x73 => reading_codes::more_value(Key::Speed),
        0x77 => reading_codes::more_value(Key::Mixing),
        _ => Reading::UnknownCode,
    }
}

// After 1Fh 28h.
#[tactic(auto, unfolding(paper::specs::Reading::read_group))]
pub fn read_group(b: u8) -> Reading
    ensures { result ≡ read_group b }
{
    match b {
        0x61 => Reading::More(Half::Actions),
        0x66 => Reading::More(Half::Images),
        0x67 => Reading::More(Half::Characters),
        0x77 => Reading::More(Half::Windows),
        _ => Reading::UnknownCode,
    }
}

// After 1Fh 28h 61h: how many parameter bytes follow, unchecked.
#[tactic(auto, unfolding(paper::specs::Reading::read_actions))]
pub fn read_actions(b: u8) -> Reading
    ensures { result ≡ read_actions b }
{
    match b {
        0x01 => reading_codes::more_rest(1),
        0x10 => reading_codes::more_rest(5),
        0x11 => reading_codes::more_rest(4),
        0x40 => reading_codes::more_rest(1),
        _ => Reading::UnknownCode,
    }
}

// After 1Fh 28h 66h.
#[tactic(auto, unfolding(paper::specs::Reading::read_images))]
pub fn read_images(b: u8) -> Reading
    ensures { result ≡ read_images b }
{
    match b {
        0x11 => reading_codes::more_word(Word::ImageWidth),
        _ => Reading::UnknownCode,
    }
}

// After 1Fh 28h 67h.
#[tactic(auto, unfolding(paper::specs::Reading::read_characters))]
pub fn read_characters(g: Module, b: u8) -> Reading
    ensures { result ≡ read_characters g b }
{
    match b {
        0x03 => reading_codes::only_if(g.widths, reading_codes::more_value(Key::Width)),
        0x40 => Reading::More(Half::EnlargeX),
        _ => Reading::UnknownCode,
    }
}

// After 1Fh 28h 77h.
#[tactic(auto, unfolding(paper::specs::Reading::read_windows))]
pub fn read_windows(b: u8) -> Reading
    ensures { result ≡ read_windows b }
{
    match b {
        0x01 => Reading::More(Half::SelectA),
        0x02 => Reading::More(Half::WindowA),
        0x10 => reading_codes::more_value(Key::Write),
        _ => Reading::UnknownCode,
    }
}
