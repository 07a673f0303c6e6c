// Leaves measured: the functions that write memory and glass, exported to C for the benchmark in bench/.
// It may use modules, dots, dots_shift, glass, glyphs and cells. Each function works on the 112 by 16 module; it tests what its leaf
// asks and does nothing if that does not hold. It is no part of the panel.
#![tactic(auto)]

ghost use Rattle.std.specs.Prelude.{IfSome};
ghost use Rattle.paper.specs.Panel.{panel};
ghost use Rattle.laws_memory.specs.Rectangles.{Within, Fits};

use paper::{Rect, Span, Style};

// The rectangle, if it lies in the module's memory and that is all of the bytes.
fn rect_in(mem: &[u8], left: u16, top: u16, width: u16, height: u16) -> Option<Rect>
    ensures { IfSome result (λ r. Within panel r × Fits panel mem.now) }
{
    let g = modules::small();
    let r = Rect {
        left: usize::from(left),
        top: usize::from(top),
        width: usize::from(width),
        height: usize::from(height),
    };
    if mem.len() != modules::memory_length(g)
        || g.columns < r.left + r.width
        || g.rows < r.top + r.height
    {
        return None;
    }
    Some(r)
}

// bench/leaves.c calls what follows by name and by argument, so a rectangle is four numbers there.

// Zeroes a rectangle.
#[unsafe(no_mangle)]
pub extern "C" fn leaf_clear(mem: &mut [u8], left: u16, top: u16, width: u16, height: u16) {
    if let Some(r) = rect_in(mem, left, top, width, height) {
        dots::clear(modules::small(), mem, r);
    }
}

// Scrolls a rectangle up.
#[unsafe(no_mangle)]
pub extern "C" fn leaf_scroll_up(
    mem: &mut [u8],
    left: u16,
    top: u16,
    width: u16,
    height: u16,
    lines: u16,
) {
    if let Some(r) = rect_in(mem, left, top, width, height) {
        dots_shift::scroll_up(modules::small(), mem, r, usize::from(lines));
    }
}

// Moves a rectangle's columns left.
#[unsafe(no_mangle)]
pub extern "C" fn leaf_move_left(
    mem: &mut [u8],
    left: u16,
    top: u16,
    width: u16,
    height: u16,
    n: u16,
) {
    if let Some(r) = rect_in(mem, left, top, width, height) {
        dots_shift::move_left(modules::small(), mem, r, usize::from(n));
    }
}

// Draws a code's cell at (left, top), enlarged, reversed and mixed as the four numbers say.
#[unsafe(no_mangle)]
pub extern "C" fn leaf_draw(
    mem: &mut [u8],
    font: &[u8],
    code: u8,
    left: u16,
    top: u16,
    width: u16,
    height: u16,
    reverse: u8,
    mixing: u8,
    across: u8,
    down: u8,
) {
    let g = modules::small();
    let Some(r) = rect_in(mem, left, top, width, height) else {
        return;
    };
    if font.len() != modules::font_length(g) || code < 0x20 {
        return;
    }
    if across < 1 || 2 < down || usize::from(down) < r.height {
        return;
    }
    let style = Style {
        reverse,
        mixing,
        across,
        down,
    };
    let cols = glyphs::font_glyph(g, font, code);
    cells::draw_alike(g, mem, cols, 1, style, r);
}

// Copies both rows' columns from `first` to the one before `end` to the glass, and says how many bytes that were.
#[unsafe(no_mangle)]
pub extern "C" fn leaf_refresh(mem: &[u8], glass: &mut [u8], first: u16, end: u16) -> usize {
    let g = modules::small();
    if mem.len() != modules::memory_length(g) || glass.len() != modules::glass_length(g) {
        return 0;
    }
    let p = Span { first, end };
    glass::refresh(g, mem, glass, [p, p])
}
