// Dots that move: the rows of a rectangle up, its columns to the left. Zeros enter behind them.
// Each contract gives the whole memory afterwards.
// It may use the paper, the laws of the memory, dots and dots_pull, and it knows nothing of spans, glass, characters, windows or the state.
#![tactic(auto)]

ghost use Rattle.std.specs.Prelude.{◌≡◌};
ghost use Rattle.laws_memory.specs.Rectangles.{Fits, Within, scrolled_up, moved_left};

use paper::{Module, Rect};

// The rows of a rectangle move up, as many as `lines` says, and zeros enter below.
pub fn scroll_up(g: Module, mem: &mut [u8], r: Rect, lines: usize)
    requires { Within g r × Fits g mem.old }
    ensures { mem.new ≡ scrolled_up g r lines mem.old }
{
    let gone = lines.min(r.height);
    let kept = r.height - gone;
    let lowest = Rect {
        top: r.top + kept,
        height: gone,
        ..r
    };
    dots_pull::pull(g, mem, Rect { height: kept, ..r }, 0, gone);
    dots::clear(g, mem, lowest);
}

// The columns of a rectangle move left by n, and zeros enter on the right.
pub fn move_left(g: Module, mem: &mut [u8], r: Rect, n: usize)
    requires { Within g r × Fits g mem.old }
    ensures { mem.new ≡ moved_left g r n mem.old }
{
    let gone = n.min(r.width);
    let kept = r.width - gone;
    let last = Rect {
        left: r.left + kept,
        width: gone,
        ..r
    };
    dots_pull::pull(g, mem, Rect { width: kept, ..r }, gone, 0);
    dots::clear(g, mem, last);
}
