// Carrying out one command on state, memory and downloads.
// It may use carry_state, carry_windows, carry_settings, carry_store and carry_dots for what a command does, state for whether a window
// is held.
// Its contract says that what was done is what the paper's meaning says, and that the downloads are those it leaves.
#![tactic(auto)]

ghost use Rattle.std.specs.Prelude.{◌≡◌, true, List, ℕ};
ghost use Rattle.paper.specs.Downloads.{faces};
ghost use Rattle.paper.specs.Carry.{exceeds, command_of, command_store};
ghost use Rattle.laws_bytes.specs.Readings.{command_ok};
ghost use Rattle.carry_dots.specs.Does.{Ready, Does};
ghost use Rattle.carry_command.specs.Heavy.{heavy_command};

use carry_state::Done;
use paper::{Command, Module, Outcome, State};

// A command read whole. A character, BS, HT and LF come here only where their cell is too large: a light turn takes the others.
pub fn carry_out(g: Module, mem: &mut [u8], store: &mut [u8], s: State, c: Command) -> Done
    requires { Ready g s mem.old × ((command_ok c ≡ true) × (heavy_command (exceeds g s) c ≡ true)) }
    ensures { (font : List ℕ) →
        Does g mem.old result mem.new (command_of g (faces font store.old) s c)
        × (store.new ≡ command_store g (faces font store.old) s c) }
{
    let held = state::is_held(s.hold);
    match c {
        Command::Character(_) | Command::Back | Command::Tab | Command::LineFeed => {
            Done::ends(s, Outcome::TooLarge)
        }
        Command::Home => carry_state::home(g, s),
        Command::Clear => carry_dots::clear(g, mem, s),
        Command::Return => carry_state::carriage_return(g, s),
        Command::Select(k) => carry_windows::select(g, s, held, k),
        Command::Initialise => carry_dots::initialise(g, mem, store, s, held),
        Command::Mode(n) => carry_state::mode(g, s, n),
        Command::Set { key, value } => carry_settings::set(g, s, held, key, value),
        Command::Enlarge { x, y } => carry_settings::enlarge(g, s, x, y),
        Command::CursorSet { x, y } => carry_state::set_cursor(g, s, x, y),
        Command::Define {
            a,
            left,
            top,
            width,
            height,
        } => { carry_windows::define(g, s, held, a, left, top, width, height) }
        Command::Cancel(a) => carry_windows::cancel(g, s, held, a),
        Command::Uncarried => Done::ends(s, Outcome::NotCarried),
        Command::Erase { a, code } => carry_store::erase(g, store, s, held, a, code),
    }
}
