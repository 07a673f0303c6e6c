// The move LF over a view: the cursor goes a line of cells down, or the range scrolls up under it.
// It may use moves and moves_views; it knows nothing of characters, windows, settings or how bytes are read.
// Each contract says that what was done is what the paper's move of the same name means.
#![tactic(auto)]

ghost use Rattle.std.specs.Prelude.{◌≤◌};
ghost use Rattle.paper.specs.Moves.{line_down_up, line_feed_of};
ghost use Rattle.laws_memory.specs.Rectangles.{Fits};
ghost use Rattle.laws_state.specs.Room.{Usable, InMemory};
ghost use Rattle.moves.specs.Does.{Does};

use moves::Spot;
use paper::Module;

// The line of cells below; without room the range scrolls up under the cursor.
fn line_down_up(g: Module, mem: &mut [u8], p: Spot, l: usize) -> Spot
    requires { Usable g × (InMemory g p.view × ((l ≤ p.view.height) × Fits g mem.old)) }
    ensures { Does g p.spans mem.old result mem.new (line_down_up g p.view l) }
{
    let v = p.view;
    if moves_views::room_below(v, l) {
        p.place(v.x, v.y + l)
    } else {
        moves::scroll(g, mem, p, l)
    }
}

// LF.
pub fn line_feed(g: Module, mem: &mut [u8], p: Spot, l: usize) -> Spot
    requires { Usable g × (InMemory g p.view × ((l ≤ p.view.height) × Fits g mem.old)) }
    ensures { Does g p.spans mem.old result mem.new (line_feed_of g p.view l) }
{
    match p.view.mode {
        1 => Spot {
            view: moves_views::line_down(g, p.view, l),
            ..p
        },
        2 => line_down_up(g, mem, p, l),
        _ => p,
    }
}
