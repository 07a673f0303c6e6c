// Whether windows are accepted: rectangles, cursors, and which window may be selected. Of number 8's bounds, those of the windows.
// It uses the paper alone. The commands that define and select a window ask it too.
#![tactic(auto)]

ghost use Rattle.std.specs.Prelude.{◌≡◌};
ghost use Rattle.paper.specs.Bounds.{cursor_ok, is_blank, window_ok, windows_ok};
ghost use Rattle.paper.specs.Settings.{is_defined, selectable, fits};

use paper::{Cursor, Module, Window};

// The cursor is inside its window, of `width` columns and `height` rows, and its mode is one of MD1 to MD3.
#[tactic(auto, unfolding(paper::specs::Bounds::cursor_ok))]
pub fn cursor_ok(width: usize, height: usize, k: Cursor) -> bool
    ensures { result ≡ cursor_ok width height k }
{
    ((k.x as usize) < width) & (((k.y as usize) < height) & (1..=3).contains(&k.mode))
}

// The record of a window that is not defined.
#[tactic(auto, unfolding(paper::specs::Bounds::is_blank))]
fn is_blank(w: Window) -> bool
    ensures { result ≡ is_blank w }
{
    w == Window::default()
}

// The rectangle has a column and a row, and does not leave the memory. Four numbers, as the paper's `fits` and a define command have them.
#[tactic(auto, unfolding(paper::specs::Settings::fits))]
pub fn fits(g: Module, left: u16, top: u16, width: u16, height: u16) -> bool
    ensures { result ≡ fits g left top width height }
{
    let across = (left as usize) + (width as usize) <= g.columns;
    let down = (top as usize) + (height as usize) <= g.rows;
    (1 <= width) & ((1 <= height) & (across & down))
}

// The window is not defined, or it and its cursor are where they may be.
#[tactic(auto, unfolding(paper::specs::Bounds::window_ok))]
fn window_ok(g: Module, w: Window) -> bool
    ensures { result ≡ window_ok g w }
{
    if is_blank(w) {
        return true;
    }
    let k = w.cursor;
    fits(g, w.left, w.top, w.width, w.height) & cursor_ok(w.width as usize, w.height as usize, k)
}

// The four user windows.
#[tactic(auto, unfolding(paper::specs::Bounds::windows_ok))]
pub fn windows_ok(g: Module, ws: [Window; 4]) -> bool
    ensures { result ≡ windows_ok g ws }
{
    ws.iter().all(|&w| window_ok(g, w))
}

// The window is defined.
fn is_defined(w: Window) -> bool
    ensures { result ≡ is_defined w }
{
    0 < w.width
}

// k is the base window or a defined user window.
#[tactic(auto, unfolding(paper::specs::Settings::selectable))]
pub fn selectable(ws: [Window; 4], k: u8) -> bool
    ensures { result ≡ selectable ws k }
{
    k == 0 || ws.get(k as usize - 1).is_some_and(|&w| is_defined(w))
}
