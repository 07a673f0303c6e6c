// Carrying out what changes a setting, with its answers 14, 15, 11 in their order.
// It may use accept_settings for a setting's domain, state_settings for what becomes of the settings; it knows nothing of memory.
// `held` says whether a window is held: a rule of the house (docs/DECISIONS, "Forms of the code") makes it a parameter of carrying.
// Each contract says that the state and the outcome are those of the paper's meaning.
#![tactic(auto)]

ghost use Rattle.std.specs.Prelude.{◌≡◌, ◌≤◌};
ghost use Rattle.paper.specs.Downloads.{Faces};
ghost use Rattle.paper.specs.Carry.{is_held, command_of};
ghost use Rattle.carry_state.specs.Says.{Says};

use carry_state::Done;
use paper::{Command, Key, Module, Outcome, State};

// A setting that one byte gives.
pub fn set(g: Module, s: State, held: bool, key: Key, n: u8) -> Done
    requires { held ≡ is_held s.hold }
    ensures { (font : Faces) → Says result (command_of g font s (Command.Set key n)) }
{
    if state_settings::not_carried_value(key, n) {
        return Done::ends(s, Outcome::NotCarried);
    }
    if state_settings::is_write(key) & held {
        return Done::ends(s, Outcome::WindowHeld);
    }
    if accept_settings::in_domain(g, key, n) {
        let settings = state_settings::with_setting(s.settings, key, n);
        return Done::ends(State { settings, ..s }, Outcome::Carried);
    }
    Done::ends(s, Outcome::OutOfDomain)
}

// The enlargement.
pub fn enlarge(g: Module, s: State, x: u8, y: u8) -> Done
    requires { s.selected ≤ 4 }
    ensures { (font : Faces) → Says result (command_of g font s (Command.Enlarge x y)) }
{
    if accept_settings::in_enlargement(x, y) {
        let settings = state_settings::enlarge(s.settings, x, y);
        return Done::ends(State { settings, ..s }, Outcome::Carried);
    }
    Done::ends(s, Outcome::OutOfDomain)
}
