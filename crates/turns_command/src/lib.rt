// A turn of a command's bytes: what they complete, carried out and counted.
// It may use turns_gather for what bytes complete, carry for what that does, numbers for what it counts as. It alone counts what
// commands came to. Its contract, as that of every turn, says that feeding the bytes one by one comes to the same.
#![tactic(auto)]

ghost use Rattle.std.specs.Prelude.{◌≡◌, false};
ghost use Rattle.turns_half.specs.Halves.{is_image};
ghost use Rattle.turns_light.specs.Turns.{light_at, Due, Turned};

use paper::{Fed, Module};
use turns_light::Turn;

// The bytes of a command that is not light: carried out, and counted.
pub fn feed_command(
    g: Module,
    mem: &mut [u8],
    store: &mut [u8],
    font: &[u8],
    piece: &[u8],
    f: Fed,
    i: usize,
) -> Turn
    requires { Due g mem.old font.now piece.now f i
        × ((is_image f.state.half ≡ false) × (light_at g f.state piece.now i ≡ false)) }
    ensures { Turned g font.now f mem.old store.old piece.now i
        result mem.new store.new }
{
    let r = turns_gather::gather(g, f.state.half, piece, i);
    let d = carry::take(g, mem, store, f.state, r.reading);
    let outcome = d.outcome;
    let fed = Fed {
        state: d.state,
        carried: f.carried + numbers::carried_by(outcome),
        answered: f.answered + numbers::answered_by(outcome),
        outcome,
        ..f
    };
    Turn { fed, at: r.at }
}
