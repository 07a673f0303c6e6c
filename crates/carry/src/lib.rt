// Carrying: what a byte of the stream was read as, on state, memory and downloads.
// It may use carry_command for a command, carry_store for a downloaded character's end, carry_state for an answer.
// Its contract says that what was done is what the paper's meaning says, and that the downloads are those it leaves.
#![tactic(auto)]

ghost use Rattle.std.specs.Prelude.{◌≡◌, true, List, ℕ};
ghost use Rattle.paper.specs.Downloads.{faces};
ghost use Rattle.paper.specs.Settings.{with_half};
ghost use Rattle.paper.specs.Carry.{exceeds, take_of, take_store};
ghost use Rattle.laws_bytes.specs.Readings.{reading_ok};
ghost use Rattle.carry_dots.specs.Does.{Ready, Does};
ghost use Rattle.carry_command.specs.Heavy.{heavy};

use carry_state::Done;
use paper::{Half, Module, Outcome, Reading, State};

// The state with nothing half read.
fn all_read(s: State) -> State
    ensures { result ≡ with_half s Half.Nothing }
{
    State {
        half: Half::Nothing,
        ..s
    }
}

// What a byte gave to the half-read command, taken; no image's byte, and so the last arm is that of an unknown code. That a command
// leaves nothing half read is said again behind it, where the ways of all commands meet.
pub fn take(g: Module, mem: &mut [u8], store: &mut [u8], s: State, r: Reading) -> Done
    requires { Ready g s mem.old × ((reading_ok g r ≡ true) × (heavy (exceeds g s) r ≡ true)) }
    ensures { (font : List ℕ) →
        Does g mem.old result mem.new (take_of g (faces font store.old) s r)
        × (store.new ≡ take_store g (faces font store.old) s r) }
{
    match r {
        Reading::More(half) => Done::ends(State { half, ..s }, Outcome::Unfinished),
        Reading::Whole(c) => {
            let d = carry_command::carry_out(g, mem, store, all_read(s), c);
            Done::ends(all_read(d.state), d.outcome)
        }
        Reading::GlyphEnd {
            batch,
            dropped,
            columns,
        } => carry_store::glyph_end(store, s, batch, dropped, columns),
        Reading::Cancels => Done::ends(all_read(s), Outcome::Cancelled),
        _ => Done::ends(all_read(s), Outcome::Unknown),
    }
}
