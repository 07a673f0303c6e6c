// Dots that are taken from elsewhere: each byte of a rectangle from the one so many columns right of it and rows below.
// Each contract gives the whole memory afterwards.
// It may use the paper, the laws of the memory and dots for an address. `pull` is its one call.
#![tactic(auto)]

ghost use Rattle.std.specs.Prelude.{◌≡◌, ◌+◌, get_or, set};
ghost use Rattle.paper.specs.Panel.{address};
ghost use Rattle.paper.specs.Strokes.{rect_at};
ghost use Rattle.laws_memory.specs.Rectangles.{Fits, Within, pulled};

use paper::{Module, Rect};

// One column of one row takes the byte `right` columns right of it and `down` rows below.
fn pull_one(g: Module, mem: &mut [u8], x: usize, y: usize, right: usize, down: usize)
    requires { Within g (rect_at x y (1 + right) (1 + down)) × Fits g mem.old }
    ensures { mem.new
        ≡ set mem.old (address g x y) (get_or mem.old (address g (x + right) (y + down)) 0) }
{
    let from = dots::at(g, x + right, y + down);
    let v = mem[from];
    let to = dots::at(g, x, y);
    mem[to] = v;
}

// Each column of one row does so, two in a turn of the loop for speed: with one, line feeds that scroll take 1.06 of the second program's time
// for 0.96. It goes from the left, so that no byte is taken after another was stored over it.
fn pull_row(
    g: Module,
    mem: &mut [u8],
    left: usize,
    y: usize,
    width: usize,
    right: usize,
    down: usize,
)
    requires { Within g (rect_at left y (width + right) (1 + down)) × Fits g mem.old }
    ensures { mem.new ≡ pulled g (rect_at left y width 1) right down mem.old }
{
    for k in 0..width / 2 {
        let j = 2 * k;
        pull_one(g, mem, left + j, y, right, down);
        pull_one(g, mem, left + (j + 1), y, right, down);
    }
    if width % 2 == 1 {
        pull_one(g, mem, left + (width - 1), y, right, down);
    }
}

// The same for each row of a rectangle, from the top.
pub fn pull(g: Module, mem: &mut [u8], r: Rect, right: usize, down: usize)
    requires { Within g (rect_at r.left r.top (r.width + right) (r.height + down)) × Fits g mem.old }
    ensures { mem.new ≡ pulled g r right down mem.old }
{
    for i in 0..r.height {
        pull_row(g, mem, r.left, r.top + i, r.width, right, down);
    }
}
