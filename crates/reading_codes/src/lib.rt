// What a command's first byte gives, and the byte after 1Bh: document 01, "How bytes are read".
// There is no state and no memory here, and it uses the paper alone. Each read_ function decides one place in a code; the functions
// above them say what is awaited next, or that the command is cancelled or unknown.
#![tactic(auto)]

ghost use Rattle.std.specs.Prelude.{◌≡◌};
ghost use Rattle.paper.specs.Reading.{more_if, only_if, read_move, read_first, read_escape};

use paper::{Command, Half, Key, Module, Reading, Word};

// Read on, or the command is cancelled at this byte.
pub fn more_if(ok: bool, half: Half) -> Reading
    ensures { result ≡ more_if ok half }
{
    if ok {
        Reading::More(half)
    } else {
        Reading::Cancels
    }
}

// A code that not every module knows.
pub fn only_if(known: bool, r: Reading) -> Reading
    ensures { result ≡ only_if known r }
{
    if known { r } else { Reading::UnknownCode }
}

// The one byte of a setting is awaited.
pub fn more_value(key: Key) -> Reading
    ensures { result ≡ Reading.More (Half.Value key) }
{
    Reading::More(Half::Value(key))
}

// A 16-bit parameter is awaited.
pub fn more_word(word: Word) -> Reading
    ensures { result ≡ Reading.More (Half.Low word) }
{
    Reading::More(Half::Low(word))
}

// So many unchecked bytes are awaited.
pub fn more_rest(left: u8) -> Reading
    ensures { result ≡ Reading.More (Half.Rest left) }
{
    Reading::More(Half::Rest { left })
}

// The moves, 08h to 0Dh.
#[tactic(auto, unfolding(paper::specs::Reading::read_move))]
fn read_move(b: u8) -> Reading
    ensures { result ≡ read_move b }
{
    match b {
        0x08 => Reading::Whole(Command::Back),
        0x09 => Reading::Whole(Command::Tab),
        0x0A => Reading::Whole(Command::LineFeed),
        0x0B => Reading::Whole(Command::Home),
        0x0C => Reading::Whole(Command::Clear),
        _ => Reading::Whole(Command::Return),
    }
}

// The first byte: characters, moves, window shortcuts, openers; the rest is unknown.
#[tactic(auto, unfolding(paper::specs::Reading::read_first))]
pub fn read_first(g: Module, b: u8) -> Reading
    ensures { result ≡ read_first g b }
{
    match b {
        0x20..=0xFF => Reading::Whole(Command::Character(b)),
        0x08..=0x0D => read_move(b),
        0x10..=0x14 => only_if(g.shortcuts, Reading::Whole(Command::Select(b - 0x10))),
        0x1B => Reading::More(Half::Escape),
        0x1F => Reading::More(Half::Unit),
        _ => Reading::UnknownCode,
    }
}

// After 1Bh.
#[tactic(auto, unfolding(paper::specs::Reading::read_escape))]
pub fn read_escape(g: Module, b: u8) -> Reading
    ensures { result ≡ read_escape g b }
{
    match b {
        0x40 => Reading::Whole(Command::Initialise),
        0x52 => more_value(Key::Charset),
        0x74 => more_value(Key::Codes),
        0x25 => only_if(g.downloads, more_value(Key::Switch)),
        0x3F => only_if(g.downloads, Reading::More(Half::EraseA)),
        0x26 => only_if(g.downloads, Reading::More(Half::DownloadA)),
        _ => Reading::UnknownCode,
    }
}
