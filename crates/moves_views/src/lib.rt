// Moves of a view alone: BS, and the line of cells below.
// It may use moves for a cursor's place; it writes nothing, and knows nothing of characters, windows, settings or how bytes are read.
// Each contract says that what was done is what the paper's move of the same name means.
#![tactic(auto)]

ghost use Rattle.std.specs.Prelude.{◌≡◌, ◌≤◌, ◌<◌};
ghost use Rattle.paper.specs.Moves.{room_below, back_of, line_down};

use paper::{Module, View};

// Whether another line of cells fits below.
pub fn room_below(v: View, l: usize) -> bool
    requires { (v.y < v.height) × (l ≤ v.height) × (v.height < 65536) }
    ensures { result ≡ room_below v l }
{
    v.y + 2 * l <= v.height
}

// The line of cells below; without room, the top one in the column that the module says.
pub fn line_down(g: Module, v: View, l: usize) -> View
    requires { (v.y < v.height) × (l ≤ v.height) × (v.height < 65536) }
    ensures { result ≡ line_down g v l }
{
    if room_below(v, l) {
        moves::to(v, v.x, v.y + l)
    } else if g.keeps {
        moves::to(v, v.x, 0)
    } else {
        moves::to(v, 0, 0)
    }
}

// BS.
pub fn back(v: View, c: usize, l: usize) -> View
    requires { c ≤ v.width }
    ensures { result ≡ back_of v c l }
{
    if c <= v.x {
        moves::to(v, v.x - c, v.y)
    } else if (v.mode != 3) & (l <= v.y) {
        moves::to(v, v.width - c, v.y - l)
    } else {
        v
    }
}
