// The bytes of a state's parts, for C, and how long each is and where it stands. docs/RECORD.md has the layout.
// It uses the paper, and record_half for what is half read.
#![tactic(auto)]

ghost use Rattle.std.specs.Prelude.{◌≡◌};
ghost use Rattle.record_half.specs.Slots.{half_slots};
ghost use Rattle.record_bytes.specs.Bytes.{settings_bytes, cursor_bytes, window_bytes, base_bytes, hold_bytes, slot_bytes, span_bytes, spans_bytes};

use paper::{Cursor, Half, Held, Settings, Span, Spans, Window};
use record_half::Slots;

// ---- the layout, as specs/Bytes has it

// How long each part is.
pub const SETTINGS: usize = 12;

pub const CURSOR: usize = 5;

pub const WINDOW: usize = 8 + CURSOR;

pub const BASE: usize = CURSOR + 1;

pub const HOLD: usize = 3 + SETTINGS;

pub const COLUMNS: usize = 9;

pub const HALF: usize = 13 + COLUMNS;

pub const SPAN: usize = 4;

pub const SPANS: usize = SPAN + SPAN;

// Where each begins, one after the other.
pub const AT_FIRST: usize = SETTINGS;

pub const AT_SECOND: usize = AT_FIRST + WINDOW;

pub const AT_THIRD: usize = AT_SECOND + WINDOW;

pub const AT_FOURTH: usize = AT_THIRD + WINDOW;

pub const AT_BASE: usize = AT_FOURTH + WINDOW;

pub const AT_SELECTED: usize = AT_BASE + CURSOR;

pub const AT_HOLD: usize = AT_BASE + BASE;

pub const AT_HALF: usize = AT_HOLD + HOLD;

pub const AT_UPPER: usize = AT_HALF + HALF;

pub const AT_LOWER: usize = AT_UPPER + SPAN;

// How long the state is, the downloads, and the record of both.
pub const STATE: usize = AT_UPPER + SPANS;

pub const STORE: usize = 144;

pub const RECORD: usize = STATE + STORE;

// ---- the bytes: a 16-bit number is two, low byte first

// The settings.
pub fn settings_bytes(v: Settings) -> [u8; SETTINGS]
    ensures { result ≡ settings_bytes v }
{
    let y = v.style;
    [
        v.charset,
        v.codes,
        v.caret,
        v.brightness,
        v.speed,
        v.width,
        v.write,
        v.switch,
        y.reverse,
        y.mixing,
        y.across,
        y.down,
    ]
}

// A cursor and its mode.
fn cursor_bytes(k: Cursor) -> [u8; CURSOR]
    ensures { result ≡ cursor_bytes k }
{
    let [x, x_high] = k.x.to_le_bytes();
    let [y, y_high] = k.y.to_le_bytes();
    [x, x_high, y, y_high, k.mode]
}

// A user window.
pub fn window_bytes(w: Window) -> [u8; WINDOW]
    ensures { result ≡ window_bytes w }
{
    let [left, left_high] = w.left.to_le_bytes();
    let [top, top_high] = w.top.to_le_bytes();
    let [width, width_high] = w.width.to_le_bytes();
    let [height, height_high] = w.height.to_le_bytes();
    let [x, x_high, y, y_high, mode] = cursor_bytes(w.cursor);
    [
        left,
        left_high,
        top,
        top_high,
        width,
        width_high,
        height,
        height_high,
        x,
        x_high,
        y,
        y_high,
        mode,
    ]
}

// The base window's cursor, and which window is selected.
pub fn base_bytes(k: Cursor, selected: u8) -> [u8; BASE]
    ensures { result ≡ base_bytes k selected }
{
    let [x, x_high, y, y_high, mode] = cursor_bytes(k);
    [x, x_high, y, y_high, mode, selected]
}

// What is held.
#[tactic(auto, unfolding(crate::specs::Bytes::hold_bytes))]
pub fn hold_bytes(hold: Option<Held>) -> [u8; HOLD]
    ensures { result ≡ hold_bytes hold }
{
    let mut bytes = [0; HOLD];
    if let Some(held) = hold {
        bytes[..3].copy_from_slice(&[1, held.window, held.selected]);
        bytes[3..].copy_from_slice(&settings_bytes(held.settings));
    }
    bytes
}

// What is half read, laid flat.
pub fn slot_bytes(t: Slots) -> [u8; HALF]
    ensures { result ≡ slot_bytes t }
{
    let [p, p_high] = t.p.to_le_bytes();
    let [q, q_high] = t.q.to_le_bytes();
    let [r, r_high] = t.r.to_le_bytes();
    let [s, s_high] = t.s.to_le_bytes();
    let c = t.columns;
    [
        t.case, t.a, t.b, t.c, t.d, p, p_high, q, q_high, r, r_high, s, s_high, c.width, c.come,
        c.c0, c.c1, c.c2, c.c3, c.c4, c.c5, c.c6,
    ]
}

// What is half read. Most often nothing is, and that takes no way over the slots.
#[tactic(auto, unfolding(record_half::specs::Slots::half_slots))]
pub fn half_bytes(half: Half) -> [u8; HALF]
    ensures { result ≡ slot_bytes (half_slots half) }
{
    match half {
        Half::Nothing => [0; HALF],
        _ => slot_bytes(half.into()),
    }
}

// A span.
fn span_bytes(p: Span) -> [u8; SPAN]
    ensures { result ≡ span_bytes p }
{
    let [first, first_high] = p.first.to_le_bytes();
    let [end, end_high] = p.end.to_le_bytes();
    [first, first_high, end, end_high]
}

// The spans of the two rows.
pub fn spans_bytes(ps: Spans) -> [u8; SPANS]
    ensures { result ≡ spans_bytes ps }
{
    let [upper, lower] = ps;
    let [a, b, c, d] = span_bytes(upper);
    let [e, f, g, h] = span_bytes(lower);
    [a, b, c, d, e, f, g, h]
}
