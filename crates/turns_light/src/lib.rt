// Light turns of the loop over a piece: whether what stands there is carried out without a state; and what every turn gives and owes.
// It may use strides for what is light, carry_state and carry_dots for whether a cell has room.
// The contract of every turn (specs/Turns) says that feeding the bytes one by one comes to the same.
#![tactic(auto)]

ghost use Rattle.std.specs.Prelude.{◌≡◌, ◌<◌, ◌≤◌, length};
ghost use Rattle.turns_half.specs.Halves.{is_nothing};
ghost use Rattle.turns_light.specs.Turns.{light_at};

use paper::{Fed, Half, Module, State};

// A turn of the loop over a piece: what has been fed, and the place of the next byte.
#[derive(Clone, Copy)]
pub struct Turn {
    pub fed: Fed,
    pub at: usize,
}

// Whether no command is half read.
fn is_nothing(half: Half) -> bool
    ensures { result ≡ is_nothing half }
{
    matches!(half, Half::Nothing)
}

// Whether what stands at i is carried out without a state: nothing is half read, and a cell has room.
pub fn is_light(g: Module, s: State, piece: &[u8], i: usize) -> bool
    requires { (s.selected ≤ 4) × (g.visible ≤ g.columns) × (g.glyph ≤ 8) × (i < length piece.now) }
    ensures { result ≡ light_at g s piece.now i }
{
    is_nothing(s.half)
        && (strides::is_light(piece, i)
            && !carry_state::is_too_large(
                carry_dots::spot_of(g, s).view,
                carry_state::cell_now(g, s),
            ))
}
