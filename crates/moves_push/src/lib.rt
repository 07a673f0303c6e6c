// HT's way in MD3's last cell: the cursor's rows are pushed left.
// It may use moves for what the moves share, and dots_shift; it knows nothing of characters, windows, settings or how bytes are read.
// Its contract says that what was done is what the paper's move of the same name means.
#![tactic(auto)]

ghost use Rattle.std.specs.Prelude.{◌+◌, ◌*◌, ◌<◌};
ghost use Rattle.paper.specs.Moves.{push_left};
ghost use Rattle.laws_memory.specs.Rectangles.{Fits};
ghost use Rattle.laws_state.specs.Room.{Usable, Room};
ghost use Rattle.moves.specs.Does.{Does};

use moves::Spot;
use paper::{Module, Rect};

// The cursor's rows move left until a cell fits at the right end.
pub fn push_left(g: Module, mem: &mut [u8], p: Spot, c: usize, l: usize) -> Spot
    requires { Usable g × (Room g p.view c l × ((p.view.width < p.view.x + 2 * c) × Fits g mem.old)) }
    ensures { Does g p.spans mem.old result mem.new (push_left g p.view c l) }
{
    let v = p.view;
    let x = v.x;
    let y = v.y;
    let width = v.width;
    let rows = Rect {
        top: v.top + y,
        height: l.min(v.height - y),
        ..moves::range(v)
    };
    dots_shift::move_left(g, mem, rows, x + 2 * c - width);
    p.marked(rows).place(width - c, y)
}
