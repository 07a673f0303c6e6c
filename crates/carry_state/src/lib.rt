// Carrying out what writes nothing: what a command comes to, and those that move the current window's cursor or set its mode.
// It may use state_views for the state's parts, and moves and glyphs for where a cursor goes; it knows nothing of memory.
// Each contract says that the state and the outcome are those of the paper's meaning, and that the meaning has no strokes.
#![tactic(auto)]

ghost use Rattle.std.specs.Prelude.{◌≡◌, true, ◌≤◌};
ghost use Rattle.paper.specs.Downloads.{Faces};
ghost use Rattle.paper.specs.Cells.{too_large};
ghost use Rattle.paper.specs.Bounds.{state_ok};
ghost use Rattle.paper.specs.Carry.{command_of};
ghost use Rattle.laws_state.specs.Room.{Usable};
ghost use Rattle.glyphs.specs.Cell.{cell_of};
ghost use Rattle.carry_state.specs.Says.{Says, done};

use glyphs::Cell;
use paper::{Command, Cursor, Module, Outcome, State, View};

// What a command or a byte came to: the state afterwards, and the outcome.
#[derive(Clone, Copy)]
pub struct Done {
    pub state: State,
    pub outcome: Outcome,
}

impl Done {
    // A command answered so, with the state as it is then.
    pub fn ends(state: State, outcome: Outcome) -> Done
        ensures { result ≡ done state outcome }
    {
        Done { state, outcome }
    }
}

// The cell that a character takes now, measured once for a command.
pub fn cell_now(g: Module, s: State) -> Cell
    requires { g.glyph ≤ 8 }
    ensures { result ≡ cell_of g s.settings.width s.settings.style }
{
    glyphs::cell_of(g, s.settings.width, s.settings.style)
}

// Whether a cell exceeds the range.
pub fn is_too_large(v: View, cell: Cell) -> bool
    ensures { result ≡ too_large v cell.columns cell.rows }
{
    (v.width < cell.columns) | (v.height < cell.rows)
}

// ---- the current window's cursor and its mode

// HOM.
pub fn home(g: Module, s: State) -> Done
    requires { Usable g × (state_ok g s ≡ true) }
    ensures { (font : Faces) → Says result (command_of g font s Command.Home) }
{
    let view = state_views::view_of(g, s);
    let to = moves::to(view, 0, 0);
    Done::ends(state_views::with_view(s, to), Outcome::Carried)
}

// CR. HOM's twin but for the row: each is its two calls, and each contract names its own command.
pub fn carriage_return(g: Module, s: State) -> Done
    requires { Usable g × (state_ok g s ≡ true) }
    ensures { (font : Faces) → Says result (command_of g font s Command.Return) }
{
    let view = state_views::view_of(g, s);
    let to = moves::to(view, 0, view.y);
    Done::ends(state_views::with_view(s, to), Outcome::Carried)
}

// MD1, MD2, MD3.
pub fn mode(g: Module, s: State, n: u8) -> Done
    requires { s.selected ≤ 4 }
    ensures { (font : Faces) → Says result (command_of g font s (Command.Mode n)) }
{
    Done::ends(state_views::in_mode(s, n), Outcome::Carried)
}

// The cursor set.
pub fn set_cursor(g: Module, s: State, x: u16, y: u16) -> Done
    requires { s.selected ≤ 4 }
    ensures { (font : Faces) → Says result (command_of g font s (Command.CursorSet x y)) }
{
    if state_views::inside_window(g, s, x, y) {
        let c = state_views::cursor_of(s);
        return Done::ends(
            state_views::at_cursor(s, Cursor { x, y, ..c }),
            Outcome::Carried,
        );
    }
    Done::ends(s, Outcome::OutOfDomain)
}
