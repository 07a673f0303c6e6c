// Turns: the loop over a piece, turn after turn. A turn feeds a light stretch, a run of an image's bytes, or the bytes of a command.
// It may use turns_light for which it is, turns_stretch, turns_image and turns_command for each, state_apart for the state that the loop
// begins with.
// Its contract says that the whole piece is fed as its bytes are one by one.
#![tactic(auto)]

ghost use Rattle.std.specs.Prelude.{◌≡◌, [], length};
ghost use Rattle.paper.specs.Panel.{font_length};
ghost use Rattle.paper.specs.Calls.{run, fed_nothing};
ghost use Rattle.laws_state.specs.Told.{fed};
ghost use Rattle.carry_dots.specs.Does.{Ready};
ghost use Rattle.turns_light.specs.Turns.{Due, Turned};

use paper::{Fed, Half, Module, Outcome, Refusal, State};
use turns_light::Turn;

// The byte at i, and those after it that are taken with it.
fn feed_some(
    g: Module,
    mem: &mut [u8],
    store: &mut [u8],
    font: &[u8],
    piece: &[u8],
    f: Fed,
    i: usize,
) -> Turn
    requires { Due g mem.old font.now piece.now f i }
    ensures { Turned g font.now f mem.old store.old piece.now i
        result mem.new store.new }
{
    let s = f.state;
    if turns_light::is_light(g, s, piece, i) {
        return turns_stretch::feed_light(g, mem, font, store, piece, f, i);
    }
    let half = s.half;
    match half {
        Half::ImageData {
            width,
            height,
            column,
            row,
        } => { turns_image::feed_image(g, mem, font, piece, f, width, height, column, row, i) }
        _ => turns_command::feed_command(g, mem, store, font, piece, f, i),
    }
}

// An answer that has fed nothing: a refusal, or the beginning of a piece. Fed is the paper's, so this is no function of it.
pub fn fed_nothing(refusal: Refusal, state: State) -> Fed
    ensures { result ≡ (fed_nothing refusal state [] []).answer }
{
    Fed {
        refusal,
        state,
        carried: 0,
        answered: 0,
        outcome: Outcome::Unfinished,
    }
}

// The whole piece.
pub fn feed_all(
    g: Module,
    mem: &mut [u8],
    store: &mut [u8],
    font: &[u8],
    piece: &[u8],
    s: State,
) -> Fed
    requires { Ready g s mem.old × (length font.now ≡ font_length g) }
    ensures { fed result mem.new store.new
        ≡ run g font.now (fed_nothing Refusal.Accepted s store.old mem.old) piece.now }
{
    let mut f = fed_nothing(Refusal::Accepted, state_apart::apart(s));
    let mut i = 0;
    // a turn takes any number of bytes, so no `for` can count it
    while i < piece.len() {
        let t = feed_some(g, mem, store, font, piece, f, i);
        f = t.fed;
        i = t.at;
    }
    f
}
