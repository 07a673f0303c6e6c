// The move HT over a view: the cursor steps, wraps to the next line of cells, or pushes its rows left.
// It may use moves and moves_views for what the moves share, and moves_push; it knows nothing of characters, windows, settings or how
// bytes are read.
// Each contract says that what was done is what the paper's move of the same name means.
#![tactic(auto)]

ghost use Rattle.std.specs.Prelude.{◌≡◌, ◌≤◌, ◌<◌};
ghost use Rattle.paper.specs.Moves.{next_line, next_line_up, ht_of};
ghost use Rattle.laws_memory.specs.Rectangles.{Fits};
ghost use Rattle.laws_state.specs.Room.{Usable, InMemory, Room};
ghost use Rattle.moves.specs.Does.{Does};

use moves::Spot;
use paper::{Module, View};

// The next line of cells, or the first one: from the line's start, the one below. (moves_views::line_down keeps its column where this one begins
// a line: two definitions of the paper, and two functions.)
fn next_line(v: View, l: usize) -> View
    requires { (v.y < v.height) × (l ≤ v.height) × (v.height < 65536) }
    ensures { result ≡ next_line v l }
{
    if moves_views::room_below(v, l) {
        moves::to(v, 0, v.y + l)
    } else {
        moves::to(v, 0, 0)
    }
}

// The next line of cells; without room the range scrolls up.
fn next_line_up(g: Module, mem: &mut [u8], p: Spot, l: usize) -> Spot
    requires { Usable g × (InMemory g p.view × ((l ≤ p.view.height) × Fits g mem.old)) }
    ensures { Does g p.spans mem.old result mem.new (next_line_up g p.view l) }
{
    let v = p.view;
    if moves_views::room_below(v, l) {
        return p.place(0, v.y + l);
    }
    let q = moves::scroll(g, mem, p, l);
    q.place(0, v.height - l)
}

// HT.
pub fn tab(g: Module, mem: &mut [u8], p: Spot, c: usize, l: usize) -> Spot
    requires { Usable g × (Room g p.view c l × Fits g mem.old) }
    ensures { Does g p.spans mem.old result mem.new (ht_of g p.view c l) }
{
    let v = p.view;
    if v.x + 2 * c <= v.width {
        return p.place(v.x + c, v.y);
    }
    match v.mode {
        1 => Spot {
            view: next_line(v, l),
            ..p
        },
        2 => next_line_up(g, mem, p, l),
        _ => moves_push::push_left(g, mem, p, c, l),
    }
}
