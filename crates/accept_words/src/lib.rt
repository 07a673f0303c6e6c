// Whether what a half-read command awaits can be awaited: a window's and an image's parameters, and a setting. A part of number 8's last
// clause.
// It uses the paper alone.
#![tactic(auto)]

ghost use Rattle.std.specs.Prelude.{◌≡◌};
ghost use Rattle.paper.specs.Bounds.{word_ok};
ghost use Rattle.paper.specs.Reading.{between, is_known};

use paper::{Key, Module, Word};

// a names a user window.
pub fn is_window(a: u8) -> bool
    ensures { result ≡ between 1 4 a }
{
    (1..=4).contains(&a)
}

// n is an image's size in a memory of `most` columns or rows.
pub fn is_size(most: usize, n: u16) -> bool
    ensures { result ≡ between 1 most n }
{
    (1..=most).contains(&usize::from(n))
}

// The parameters before an awaited 16-bit parameter.
#[tactic(auto, unfolding(paper::specs::Bounds::word_ok))]
pub fn word_ok(g: Module, word: Word) -> bool
    ensures { result ≡ word_ok g word }
{
    match word {
        Word::CursorX | Word::CursorY { .. } | Word::ImageWidth => true,
        Word::WindowLeft { a }
        | Word::WindowTop { a, .. }
        | Word::WindowWidth { a, .. }
        | Word::WindowHeight { a, .. } => is_window(a),
        Word::ImageHeight { width } => is_size(g.columns, width),
    }
}

// The module knows the command that sets the setting.
#[tactic(auto, unfolding(paper::specs::Reading::is_known))]
pub fn is_known(g: Module, key: Key) -> bool
    ensures { result ≡ is_known g key }
{
    match key {
        Key::Width => g.widths,
        Key::Switch => g.downloads,
        Key::Charset
        | Key::Codes
        | Key::Caret
        | Key::Brightness
        | Key::Reverse
        | Key::Speed
        | Key::Mixing
        | Key::Write => true,
    }
}
