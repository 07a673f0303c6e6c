// Carrying out what changes the downloads: a download that has come whole, and erase, each with the answers 15, 11, 18 and 19 that
// it can have.
// It may use downloads_answer for what becomes of the downloads and for the answer, state for whether a window is held, carry_state for
// the answer's form.
// Each contract says that the state and the outcome are those of the paper's meaning, and the downloads those it leaves. `held` stays a
// parameter beside the state: a rule of the house (docs/DECISIONS, "Forms of the code").
#![tactic(auto)]

ghost use Rattle.std.specs.Prelude.{◌≡◌, List, ℕ};
ghost use Rattle.paper.specs.Downloads.{faces};
ghost use Rattle.paper.specs.Carry.{is_held};
ghost use Rattle.carry_store.specs.Stores.{StoresCommand, StoresReading};

use carry_state::Done;
use paper::{Batch, Columns, Command, Half, Module, Outcome, Reading, State};

// A download's last column has come: it is stored, and its define, with `noted` for its note of a drop so far, goes on with the next
// code or is read to its end.
pub fn glyph_end(store: &mut [u8], s: State, batch: Batch, noted: bool, columns: Columns) -> Done
    ensures { (g : Module) (font : List ℕ) →
        StoresReading g (faces font store.old) s (Reading.GlyphEnd batch noted columns) result store.new }
{
    let held = state::is_held(s.hold);
    let code = batch.code;
    let dropped = downloads_answer::store_one(store, held, code, noted, columns);
    if code < batch.last {
        let half = Half::GlyphWidth {
            batch: Batch {
                code: code + 1,
                ..batch
            },
            dropped,
        };
        return Done::ends(State { half, ..s }, Outcome::Unfinished);
    }
    let half = Half::Nothing;
    let answer = downloads_answer::define_answer(held, dropped);
    Done::ends(State { half, ..s }, answer)
}

// Erase; `held` says whether a window is held.
pub fn erase(g: Module, store: &mut [u8], s: State, held: bool, a: u8, code: u8) -> Done
    requires { held ≡ is_held s.hold }
    ensures { (font : List ℕ) →
        StoresCommand g (faces font store.old) s (Command.Erase a code) result store.new }
{
    let answer = downloads_answer::erase_one(store, held, a, code);
    Done::ends(s, answer)
}
