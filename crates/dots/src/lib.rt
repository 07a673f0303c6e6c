// Dots: the memory as bytes at rows·x + y. Rectangles are cleared, and all of it is erased.
// Each contract gives the whole memory afterwards.
// It may use the paper, the laws of the memory and the spans' growth, and it knows nothing of the glass, characters, windows or the state.
// No struct holds the module and the memory, here or above, with that they fit as its invariant: lent by `&mut` it could change the module, so each of
// the 40 contracts with `Fits` had to say that it does not. The same holds of memory with glass, spans and view.
#![tactic(auto)]

ghost use Rattle.std.specs.Prelude.{◌≡◌, ◌≤◌, ◌<◌};
ghost use Rattle.paper.specs.Panel.{memory_length, address};
ghost use Rattle.paper.specs.Strokes.{rect_at, mark_rect};
ghost use Rattle.paper.specs.Cells.{memory_rect};
ghost use Rattle.laws_memory.specs.Rectangles.{Fits, Within, cleared};

use paper::{Module, Rect, Spans};

// The address of column x, row y.
pub fn at(g: Module, x: usize, y: usize) -> usize
    requires { (x < g.columns) × (y < g.rows) × (memory_length g ≤ 65536) }
    ensures { (result ≡ address g x y) × (result < memory_length g) }
{
    g.rows * x + y
}

// Zeroes the columns of one row.
fn clear_row(g: Module, mem: &mut [u8], left: usize, y: usize, width: usize)
    requires { Within g (rect_at left y width 1) × Fits g mem.old }
    ensures { mem.new ≡ cleared g (rect_at left y width 1) mem.old }
{
    for j in 0..width {
        let a = at(g, left + j, y);
        mem[a] = 0;
    }
}

// Zeroes a rectangle.
pub fn clear(g: Module, mem: &mut [u8], r: Rect)
    requires { Within g r × Fits g mem.old }
    ensures { mem.new ≡ cleared g r mem.old }
{
    for i in 0..r.height {
        clear_row(g, mem, r.left, r.top + i, r.width);
    }
}

// Zeroes all of memory, and marks all of it. (No `fill`: that its zeros are `cleared` of all of memory took a proof of its own.)
pub fn erase(g: Module, mem: &mut [u8], spans: Spans) -> Spans
    requires { Fits g mem.old × ((g.columns < 65536) × (g.rows < 65536)) }
    ensures { (mem.new ≡ cleared g (memory_rect g) mem.old) × (result ≡ mark_rect (memory_rect g) spans) }
{
    let all = Rect {
        left: 0,
        top: 0,
        width: g.columns,
        height: g.rows,
    };
    clear(g, mem, all);
    spans::mark(spans, all)
}
