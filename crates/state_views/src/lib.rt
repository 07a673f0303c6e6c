// The current window's cursor, and the range in which a command works: read from the state, and put back into it.
// It may use the paper, and state to replace a window; it knows nothing of memory or of how bytes are read.
// Each contract is the paper's definition of the same name. That `selected` is 4 at most is asked for and no invariant of State: the
// record that a caller lends can hold more, and number 8 tests it.
#![tactic(auto)]

ghost use Rattle.std.specs.Prelude.{◌≡◌, ◌+◌, ◌≤◌, ◌<◌};
ghost use Rattle.paper.specs.Settings.{window_at, cursor_of, at_cursor, in_mode, inside_window, base_view, window_view, view_of, with_view};

use paper::{Cursor, Module, State, View, Window};

// ---- the current window

// The current window, where it is a user window.
fn current_window(s: State) -> Window
    requires { (1 ≤ s.selected) × (s.selected ≤ 4) }
    ensures { result ≡ window_at s.windows s.selected }
{
    // an array is indexed in a copy of it: indexed in the state it would lay the state into memory (docs/PROVING.md)
    let windows = s.windows;
    windows[(s.selected - 1) as usize]
}

// The current window's cursor and mode.
pub fn cursor_of(s: State) -> Cursor
    requires { s.selected ≤ 4 }
    ensures { result ≡ cursor_of s }
{
    if s.selected == 0 {
        s.base
    } else {
        current_window(s).cursor
    }
}

// The state with the current window's cursor and mode replaced.
pub fn at_cursor(s: State, c: Cursor) -> State
    requires { s.selected ≤ 4 }
    ensures { result ≡ at_cursor s c }
{
    if s.selected == 0 {
        State { base: c, ..s }
    } else {
        let w = current_window(s);
        state::replace(s, s.selected, Window { cursor: c, ..w })
    }
}

// The current window in another mode.
pub fn in_mode(s: State, mode: u8) -> State
    requires { s.selected ≤ 4 }
    ensures { result ≡ in_mode s mode }
{
    let c = cursor_of(s);
    at_cursor(s, Cursor { mode, ..c })
}

// Whether a place counted from the current window's top left lies in it.
pub fn inside_window(g: Module, s: State, x: u16, y: u16) -> bool
    requires { s.selected ≤ 4 }
    ensures { result ≡ inside_window g s x y }
{
    if s.selected == 0 {
        ((x as usize) < g.columns) & ((y as usize) < g.rows)
    } else {
        let w = current_window(s);
        (x < w.width) & (y < w.height)
    }
}

// ---- the range

// The base window's range, by the write mode and where its cursor is.
fn base_view(g: Module, write: u8, c: Cursor) -> View
    requires { g.visible ≤ g.columns }
    ensures { result ≡ base_view g write c }
{
    let x = c.x as usize;
    let visible = g.visible;
    let view = View {
        left: 0,
        top: 0,
        width: g.columns,
        height: g.rows,
        x,
        y: c.y as usize,
        mode: c.mode,
    };
    if write == 1 {
        view
    } else if x < visible {
        View {
            width: visible,
            ..view
        }
    } else {
        View {
            left: visible,
            width: g.columns - visible,
            x: x - visible,
            ..view
        }
    }
}

// A user window's range.
fn window_view(w: Window) -> View
    ensures { result ≡ window_view w }
{
    let c = w.cursor;
    View {
        left: w.left as usize,
        top: w.top as usize,
        width: w.width as usize,
        height: w.height as usize,
        x: c.x as usize,
        y: c.y as usize,
        mode: c.mode,
    }
}

// The range in which a command works, with the cursor counted from its top left.
pub fn view_of(g: Module, s: State) -> View
    requires { (s.selected ≤ 4) × (g.visible ≤ g.columns) }
    ensures { result ≡ view_of g s }
{
    if s.selected == 0 {
        base_view(g, s.settings.write, s.base)
    } else {
        window_view(current_window(s))
    }
}

// The state with the current window's cursor where a view has it.
pub fn with_view(s: State, v: View) -> State
    requires { (s.selected ≤ 4) × (v.left + v.x < 65536) × (v.top + v.y < 65536) }
    ensures { result ≡ with_view s v }
{
    let mode = v.mode;
    if s.selected == 0 {
        at_cursor(
            s,
            Cursor {
                x: (v.left + v.x) as u16,
                y: (v.top + v.y) as u16,
                mode,
            },
        )
    } else {
        at_cursor(
            s,
            Cursor {
                x: v.x as u16,
                y: v.y as u16,
                mode,
            },
        )
    }
}
