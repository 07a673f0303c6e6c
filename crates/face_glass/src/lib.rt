// Refresh as C makes it, for any usable module of two rows, over the state and its downloads as a record of 259 bytes.
// It may use calls_glass for the call, record_read, record_bytes and face for the record, numbers for the answer.
// Its contract is one line: what the call answers and leaves is its definition in face's specs/Face.antt.
#![tactic(auto)]

ghost use Rattle.std.specs.Prelude.{◌≡◌};
ghost use Rattle.laws_state.specs.Room.{Usable};
ghost use Rattle.face.specs.Face.{refreshing, refresh_c};

use face::{PanelRefreshed, WRONG_LENGTH};
use paper::Module;
use record_bytes::{RECORD, STATE};

// Brings the glass in step. 100: the record is not 259 bytes; then 1, 3, 8.
pub fn refresh(g: Module, state: &mut [u8], mem: &[u8], glass: &mut [u8]) -> PanelRefreshed
    requires { Usable g × (g.rows ≡ 2) }
    ensures { refreshing result state.new glass.new ≡ refresh_c g state.old mem.now glass.old }
{
    if state.len() != RECORD {
        return PanelRefreshed {
            answer: WRONG_LENGTH,
            moved: 0,
        };
    }
    let s = record_read::state_of(state.first_chunk().unwrap());
    let r = calls_glass::refresh(g, &state[STATE..], mem, glass, s);
    let answer = numbers::refusal_number(r.refusal);
    face::keep_spans(answer, r.state.spans, state);
    PanelRefreshed {
        answer,
        moved: r.moved,
    }
}
