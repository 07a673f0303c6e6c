// Carrying out the commands that write on memory whatever the cell, CLR and initialise; and the state's spot.
// It may use carry_state for the answer's form, state and state_views for the state's parts, moves and dots for what is written, and
// downloads_write for their end.
// Each contract says that what was done is what the paper's meaning says. `held` stays a parameter beside the state: a rule of
// the house (docs/DECISIONS, "Forms of the code").
#![tactic(auto)]

ghost use Rattle.std.specs.Prelude.{◌≡◌, List, ℕ, ◌+◌, ◌≤◌, ◌<◌};
ghost use Rattle.paper.specs.Downloads.{Faces, faces};
ghost use Rattle.paper.specs.Settings.{with_view, with_spans, view_of};
ghost use Rattle.paper.specs.Carry.{is_held, command_of, command_store};
ghost use Rattle.moves.specs.Does.{spot};
ghost use Rattle.carry_dots.specs.Does.{Ready, Does};

use carry_state::Done;
use moves::Spot;
use paper::{Command, Module, Outcome, State};

// The current window's range and cursor, and the spans.
pub fn spot_of(g: Module, s: State) -> Spot
    requires { (s.selected ≤ 4) × (g.visible ≤ g.columns) }
    ensures { result ≡ spot (view_of g s) s.spans }
{
    let spans = s.spans;
    Spot {
        view: state_views::view_of(g, s),
        spans,
    }
}

// The state after a move: the current window's cursor and the spans where the spot has them.
pub fn settle(s: State, p: Spot) -> State
    requires { (s.selected ≤ 4) × (p.view.left + p.view.x < 65536) × (p.view.top + p.view.y < 65536) }
    ensures { result ≡ with_spans (with_view s p.view) p.spans }
{
    let t = state_views::with_view(s, p.view);
    let spans = p.spans;
    State { spans, ..t }
}

// CLR.
pub fn clear(g: Module, mem: &mut [u8], s: State) -> Done
    requires { Ready g s mem.old }
    ensures { (font : Faces) → Does g mem.old result mem.new (command_of g font s Command.Clear) }
{
    let p = spot_of(g, s);
    let q = moves::clear(g, mem, p);
    Done::ends(settle(s, q), Outcome::Carried)
}

// Initialise: the initial state, all of memory zeroed, and every download erased.
pub fn initialise(g: Module, mem: &mut [u8], store: &mut [u8], s: State, held: bool) -> Done
    requires { Ready g s mem.old × (held ≡ is_held s.hold) }
    ensures { (font : List ℕ) →
        Does g mem.old result mem.new (command_of g (faces font store.old) s Command.Initialise)
        × (store.new ≡ command_store g (faces font store.old) s Command.Initialise) }
{
    if held {
        return Done::ends(s, Outcome::WindowHeld);
    }
    let spans = dots::erase(g, mem, s.spans);
    downloads_write::erase_all(store);
    let t = state::initial_state(g);
    Done::ends(State { spans, ..t }, Outcome::Carried)
}
