// The state: what commands do to the state alone: the initial state, user windows and whether one is held.
// It may use the paper and state_settings, and it knows nothing of memory or of how bytes are read. The current window's cursor and its
// range are state_views'.
// Each contract is the paper's definition of the same name. State, Held and Window are the paper's, which holds no code: what is asked
// of them is a function here and not a method. A window's number, 1 to 4, is asked for in each contract: the calls and commands that
// bring one take any number, and refuse one that is no window's.
#![tactic(auto)]

ghost use Rattle.std.specs.Prelude.{◌≡◌, ◌-◌, ◌≤◌, set};
ghost use Rattle.paper.specs.Strokes.{no_spans};
ghost use Rattle.paper.specs.Settings.{top_left, no_window, initial_state, new_window, defined, cancelled};
ghost use Rattle.paper.specs.Carry.{is_held};

use paper::{Cursor, Half, Held, Module, Span, Spans, State, Window};

// ---- the initial state

// A cursor at a window's top left, in MD1.
fn top_left() -> Cursor
    ensures { result ≡ top_left }
{
    Cursor {
        mode: 1,
        ..Cursor::default()
    }
}

// The record of a window that is not defined.
fn no_window() -> Window
    ensures { result ≡ no_window }
{
    Window::default()
}

// Every span empty.
pub fn no_spans(g: Module) -> Spans
    requires { g.rows ≡ 2 }
    ensures { result ≡ no_spans g }
{
    [Span::default(); 2]
}

// The initial state, both spans empty.
pub fn initial_state(g: Module) -> State
    requires { g.rows ≡ 2 }
    ensures { result ≡ initial_state g }
{
    State {
        settings: state_settings::initial_settings(g),
        windows: [no_window(); 4],
        base: top_left(),
        selected: 0,
        hold: None,
        half: Half::Nothing,
        spans: no_spans(g),
    }
}

// ---- user windows

// Whether a window is held. It is read from the state here and nowhere else.
#[tactic(auto, unfolding(paper::specs::Carry::is_held))]
pub fn is_held(h: Option<Held>) -> bool
    ensures { result ≡ is_held h }
{
    h.is_some()
}

// The four user windows with one place changed: that of window k (1 to 4). Define, cancel and every move go through it.
fn with_window(windows: [Window; 4], k: u8, w: Window) -> [Window; 4]
    requires { (1 ≤ k) × (k ≤ 4) }
    ensures { result ≡ set windows (k - 1) w }
{
    let i = (k - 1) as usize;
    let mut changed = windows;
    changed[i] = w;
    changed
}

// The state with user window k (1 to 4) replaced.
pub fn replace(s: State, k: u8, w: Window) -> State
    requires { (1 ≤ k) × (k ≤ 4) }
    ensures { result ≡ defined s k w }
{
    State {
        windows: with_window(s.windows, k, w),
        ..s
    }
}

// Defines user window k, its cursor at its top left, in MD1.
pub fn define(s: State, k: u8, left: u16, top: u16, width: u16, height: u16) -> State
    requires { (1 ≤ k) × (k ≤ 4) }
    ensures { result ≡ defined s k (new_window left top width height) }
{
    let w = Window {
        left,
        top,
        width,
        height,
        cursor: top_left(),
    };
    replace(s, k, w)
}

// Cancels user window k; the current one gives way to the base.
pub fn cancel(s: State, k: u8) -> State
    requires { (1 ≤ k) × (k ≤ 4) }
    ensures { result ≡ cancelled s k }
{
    let mut t = replace(s, k, no_window());
    if s.selected == k {
        t.selected = 0;
    }
    t
}
