// Start as C makes it, for any usable module of two rows, over the state and its downloads as a record of 259 bytes.
// It may use calls_start for the call, record_bytes, record_write and face for the record, numbers for the answer.
// Its contract is one line: what the call answers and leaves is its definition in face's specs/Face.antt.
#![tactic(auto)]

ghost use Rattle.std.specs.Prelude.{◌≡◌};
ghost use Rattle.laws_state.specs.Room.{Usable};
ghost use Rattle.face.specs.Face.{starting, start_c};

use face::WRONG_LENGTH;
use paper::Module;
use record_bytes::{RECORD, STATE};

// Starts a panel. 100: the record is not 259 bytes; 1: the memory has not its length, and the record is the initial one.
pub fn start(g: Module, state: &mut [u8], mem: &mut [u8]) -> u32
    requires { Usable g × (g.rows ≡ 2) }
    ensures { starting result state.new mem.new ≡ start_c g state.old mem.old }
{
    if state.len() != RECORD {
        return WRONG_LENGTH;
    }
    let a = calls_start::start(g, mem, &mut state[STATE..]);
    record_write::encode(a.state, &mut state[..STATE]);
    numbers::refusal_number(a.refusal)
}
