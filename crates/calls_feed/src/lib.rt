// Feed, for any usable module: what is refused, in its order.
// It may use modules for the lengths, accept for the state's test, and turns for the loop over a piece.
#![tactic(auto)]

ghost use Rattle.std.specs.Prelude.{◌≡◌};
ghost use Rattle.paper.specs.Calls.{feed_call};
ghost use Rattle.laws_state.specs.Room.{Usable};
ghost use Rattle.laws_state.specs.Told.{fed};

use paper::{Fed, Module, Refusal, State};

// A piece of the stream. 1: the memory has not its length; 2: the font has not; 8: the state breaks a bound.
pub fn feed(g: Module, mem: &mut [u8], store: &mut [u8], font: &[u8], piece: &[u8], s: State) -> Fed
    requires { Usable g × (g.rows ≡ 2) }
    ensures { fed result mem.new store.new
        ≡ feed_call g font.now s store.old mem.old piece.now }
{
    if mem.len() != modules::memory_length(g) {
        return turns::fed_nothing(Refusal::MemoryLength, s);
    }
    if font.len() != modules::font_length(g) {
        return turns::fed_nothing(Refusal::FontLength, s);
    }
    if accept::is_accepted(g, s, store) {
        return turns::feed_all(g, mem, store, font, piece, s);
    }
    turns::fed_nothing(Refusal::BrokenState, s)
}
