// Carrying out what selects, defines and cancels a window, with its answers 15, 11, 17 in their order.
// It may use accept_windows for which window there is and what fits, state for the state's parts; it knows nothing of memory.
// `held` says whether a window is held: a rule of the house (docs/DECISIONS, "Forms of the code") makes it a parameter of carrying.
// Each contract says that the state and the outcome are those of the paper's meaning.
#![tactic(auto)]

ghost use Rattle.std.specs.Prelude.{◌≡◌, ◌≤◌};
ghost use Rattle.paper.specs.Downloads.{Faces};
ghost use Rattle.paper.specs.Carry.{is_held, command_of};
ghost use Rattle.carry_state.specs.Says.{Says};

use carry_state::Done;
use paper::{Command, Module, Outcome, State};

// A window selected.
pub fn select(g: Module, s: State, held: bool, k: u8) -> Done
    requires { held ≡ is_held s.hold }
    ensures { (font : Faces) → Says result (command_of g font s (Command.Select k)) }
{
    if held {
        return Done::ends(s, Outcome::WindowHeld);
    }
    if 4 < k {
        return Done::ends(s, Outcome::OutOfDomain);
    }
    if accept_windows::selectable(s.windows, k) {
        return Done::ends(State { selected: k, ..s }, Outcome::Carried);
    }
    Done::ends(s, Outcome::NotDefined)
}

// A user window defined.
pub fn define(
    g: Module,
    s: State,
    held: bool,
    a: u8,
    left: u16,
    top: u16,
    width: u16,
    height: u16,
) -> Done
    requires { (held ≡ is_held s.hold) × (1 ≤ a) × (a ≤ 4) }
    ensures { (font : Faces) → Says result (command_of g font s (Command.Define a left top width height)) }
{
    if held {
        return Done::ends(s, Outcome::WindowHeld);
    }
    if accept_windows::fits(g, left, top, width, height) {
        return Done::ends(
            state::define(s, a, left, top, width, height),
            Outcome::Carried,
        );
    }
    Done::ends(s, Outcome::OutOfDomain)
}

// A user window cancelled.
pub fn cancel(g: Module, s: State, held: bool, a: u8) -> Done
    requires { (held ≡ is_held s.hold) × (1 ≤ a) × (a ≤ 4) }
    ensures { (font : Faces) → Says result (command_of g font s (Command.Cancel a)) }
{
    if held {
        return Done::ends(s, Outcome::WindowHeld);
    }
    Done::ends(state::cancel(s, a), Outcome::Carried)
}
