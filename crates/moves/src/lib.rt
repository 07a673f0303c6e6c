// Moves: what the moves over a view share: where the cursor goes, what memory holds, how the spans grow; and CLR.
// It may use the dots, their shifts and the spans; it knows nothing of characters, windows, settings or how bytes are read.
// Each contract says that what was done is what the paper's move of the same name means.
#![tactic(auto)]

ghost use Rattle.std.specs.Prelude.{◌≡◌, ◌+◌, ◌<◌};
ghost use Rattle.paper.specs.Strokes.{mark_rect};
ghost use Rattle.paper.specs.Cells.{range_of, up_stroke};
ghost use Rattle.paper.specs.Moves.{to, writing, clear_of};
ghost use Rattle.laws_memory.specs.Rectangles.{Fits};
ghost use Rattle.laws_state.specs.Room.{Usable, InMemory};
ghost use Rattle.moves.specs.Does.{Does, spot};

use paper::{Module, Rect, Spans, View};

// What a move works on and gives back: the range with the cursor in it, and both rows' spans.
#[derive(Clone, Copy)]
pub struct Spot {
    pub view: View,
    pub spans: Spans,
}

impl Spot {
    // The spot with its cursor at (x, y); nothing is written.
    pub fn place(self, x: usize, y: usize) -> Spot
        ensures { result ≡ spot (to self.view x y) self.spans }
    {
        Spot {
            view: to(self.view, x, y),
            ..self
        }
    }

    // The spot after a rectangle was written: its spans have grown by it.
    pub fn marked(self, r: Rect) -> Spot
        requires { (r.left + r.width < 65536) × (r.top + r.height < 65536) }
        ensures { result ≡ spot self.view (mark_rect r self.spans) }
    {
        Spot {
            spans: spans::mark(self.spans, r),
            ..self
        }
    }
}

// ---- places in a range: View is the paper's, which holds no code, so they are functions

// The cursor at (x, y).
pub fn to(v: View, x: usize, y: usize) -> View
    ensures { result ≡ to v x y }
{
    View { x, y, ..v }
}

// The range.
pub fn range(v: View) -> Rect
    ensures { result ≡ range_of v }
{
    Rect {
        left: v.left,
        top: v.top,
        width: v.width,
        height: v.height,
    }
}

// ---- the moves

// The range moves up l rows, and all of it is written; the cursor stays.
pub fn scroll(g: Module, mem: &mut [u8], p: Spot, l: usize) -> Spot
    requires { Usable g × (InMemory g p.view × Fits g mem.old) }
    ensures { Does g p.spans mem.old result mem.new (writing (up_stroke g p.view l) p.view) }
{
    let r = range(p.view);
    dots_shift::scroll_up(g, mem, r, l);
    p.marked(r)
}

// CLR.
pub fn clear(g: Module, mem: &mut [u8], p: Spot) -> Spot
    requires { Usable g × (InMemory g p.view × Fits g mem.old) }
    ensures { Does g p.spans mem.old result mem.new (clear_of p.view) }
{
    let r = range(p.view);
    dots::clear(g, mem, r);
    p.marked(r).place(0, 0)
}
