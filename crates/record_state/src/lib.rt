// The state that a record's bytes give, read by their places. docs/RECORD.md has the layout.
// It uses the paper, record_parts for a 16-bit number and the settings, and record_bytes for the places. As in record_parts, a part is read by its place.
#![tactic(auto)]

ghost use Rattle.std.specs.Prelude.{◌≡◌, ◌+◌, ◌≤◌, length};
ghost use Rattle.record_bytes.specs.Bytes.{cursor_length, window_length, span_length};
ghost use Rattle.record_parts.specs.Parts.{cursor_at, window_from, span_at, decoded_with};

use paper::{Cursor, Half, Held, Span, State, Window};
use record_bytes::{
    AT_BASE, AT_FIRST, AT_FOURTH, AT_LOWER, AT_SECOND, AT_SELECTED, AT_THIRD, AT_UPPER, STATE,
};

// A cursor and its mode.
#[tactic(auto, unfolding(record_parts::specs::Parts::cursor_at))]
fn cursor_at(l: &[u8], i: usize) -> Cursor
    requires { i + cursor_length ≤ length l.now }
    ensures { result ≡ cursor_at l.now i }
{
    Cursor {
        x: record_parts::word_at(l, i),
        y: record_parts::word_at(l, i + 2),
        mode: l[i + 4],
    }
}

// A user window.
#[tactic(auto, unfolding(record_parts::specs::Parts::window_from))]
fn window_from(l: &[u8], i: usize) -> Window
    requires { i + window_length ≤ length l.now }
    ensures { result ≡ window_from l.now i }
{
    Window {
        left: record_parts::word_at(l, i),
        top: record_parts::word_at(l, i + 2),
        width: record_parts::word_at(l, i + 4),
        height: record_parts::word_at(l, i + 6),
        cursor: cursor_at(l, i + 8),
    }
}

// A span.
#[tactic(auto, unfolding(record_parts::specs::Parts::span_at))]
fn span_at(l: &[u8], i: usize) -> Span
    requires { i + span_length ≤ length l.now }
    ensures { result ≡ span_at l.now i }
{
    Span {
        first: record_parts::word_at(l, i),
        end: record_parts::word_at(l, i + 2),
    }
}

// The state that bytes give, with this held and this half read.
pub fn decode_with(l: &[u8; STATE], hold: Option<Held>, half: Half) -> State
    ensures { result ≡ decoded_with l.now hold half }
{
    State {
        settings: record_parts::settings_at(l, 0),
        windows: [
            window_from(l, AT_FIRST),
            window_from(l, AT_SECOND),
            window_from(l, AT_THIRD),
            window_from(l, AT_FOURTH),
        ],
        base: cursor_at(l, AT_BASE),
        selected: l[AT_SELECTED],
        hold,
        half,
        spans: [span_at(l, AT_UPPER), span_at(l, AT_LOWER)],
    }
}
