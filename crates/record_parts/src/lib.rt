// The parts of a state's bytes that a call tests or hands on: settings, what is held, what is half read. docs/RECORD.md has the layout.
// It uses the paper, record_half for what is half read, and record_bytes for the lengths.
// Each is handed all the bytes and a place, as its definition in specs/Parts is: a part as an array would ask its caller to cut it out.
#![tactic(auto)]

ghost use Rattle.std.specs.Prelude.{◌≡◌, ◌+◌, ◌≤◌, length};
ghost use Rattle.record_bytes.specs.Bytes.{settings_length, hold_length, columns_length, half_length};
ghost use Rattle.record_parts.specs.Parts.{word_at, settings_at, hold_at, columns_at, slots_at};

use paper::{Columns, Held, Settings, Style};
use record_half::Slots;

// A 16-bit number.
pub fn word_at(l: &[u8], i: usize) -> u16
    requires { i + 2 ≤ length l.now }
    ensures { result ≡ word_at l.now i }
{
    u16::from_le_bytes([l[i], l[i + 1]])
}

// The settings.
pub fn settings_at(l: &[u8], i: usize) -> Settings
    requires { i + settings_length ≤ length l.now }
    ensures { result ≡ settings_at l.now i }
{
    let style = Style {
        reverse: l[i + 8],
        mixing: l[i + 9],
        across: l[i + 10],
        down: l[i + 11],
    };
    Settings {
        charset: l[i],
        codes: l[i + 1],
        caret: l[i + 2],
        brightness: l[i + 3],
        speed: l[i + 4],
        width: l[i + 5],
        write: l[i + 6],
        switch: l[i + 7],
        style,
    }
}

// What is held; a first byte other than 1 is taken for nothing, whose bytes are others.
#[tactic(auto, unfolding(crate::specs::Parts::hold_at))]
pub fn hold_at(l: &[u8], i: usize) -> Option<Held>
    requires { i + hold_length ≤ length l.now }
    ensures { result ≡ hold_at l.now i }
{
    match l[i] {
        1 => Some(Held {
            window: l[i + 1],
            selected: l[i + 2],
            settings: settings_at(l, i + 3),
        }),
        _ => None,
    }
}

// The columns of a download as they come.
fn columns_at(l: &[u8], i: usize) -> Columns
    requires { i + columns_length ≤ length l.now }
    ensures { result ≡ columns_at l.now i }
{
    Columns {
        width: l[i],
        come: l[i + 1],
        c0: l[i + 2],
        c1: l[i + 3],
        c2: l[i + 4],
        c3: l[i + 5],
        c4: l[i + 6],
        c5: l[i + 7],
        c6: l[i + 8],
    }
}

// What is half read, laid flat.
#[tactic(auto, unfolding(crate::specs::Parts::slots_at))]
pub fn slots_at(l: &[u8], i: usize) -> Slots
    requires { i + half_length ≤ length l.now }
    ensures { result ≡ slots_at l.now i }
{
    Slots {
        case: l[i],
        a: l[i + 1],
        b: l[i + 2],
        c: l[i + 3],
        d: l[i + 4],
        p: word_at(l, i + 5),
        q: word_at(l, i + 7),
        r: word_at(l, i + 9),
        s: word_at(l, i + 11),
        columns: columns_at(l, i + 13),
    }
}
