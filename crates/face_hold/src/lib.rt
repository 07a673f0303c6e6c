// Hold and release as C makes them, for any module, over the state and its downloads as a record of 259 bytes.
// Neither call asks anything of its caller.
// It may use calls_hold for the calls, record_read and face for the record, numbers for the answers.
// Each contract is one line: what a call answers and leaves is the definition of that call in face's specs/Face.antt.
#![tactic(auto)]

ghost use Rattle.std.specs.Prelude.{◌≡◌, length};
ghost use Rattle.record_bytes.specs.Bytes.{record_length};
ghost use Rattle.face.specs.Face.{calling, calling_c, hold_c, release_c};

use face::WRONG_LENGTH;
use paper::{Answer, Module};
use record_bytes::{RECORD, STATE};

// Writes the state that a call gave into its record, and gives the answer's number.
fn told(a: Answer, state: &mut [u8]) -> u32
    requires { length state.old ≡ record_length }
    ensures { calling result state.new ≡ calling_c state.old a }
{
    let answer = numbers::refusal_number(a.refusal);
    face::keep(answer, a.state, state);
    answer
}

// Holds a window. 100: the record is not 259 bytes; then 8, 6, 4, 5.
pub fn hold(g: Module, state: &mut [u8], window: usize) -> u32
    ensures { calling result state.new ≡ hold_c g state.old window }
{
    if state.len() != RECORD {
        return WRONG_LENGTH;
    }
    let s = record_read::state_of(state.first_chunk().unwrap());
    let held = calls_hold::hold(g, &state[STATE..], s, window);
    told(held, state)
}

// Releases the held window. 100: the record is not 259 bytes; then 8, 7.
pub fn release(g: Module, state: &mut [u8]) -> u32
    ensures { calling result state.new ≡ release_c g state.old }
{
    if state.len() != RECORD {
        return WRONG_LENGTH;
    }
    let s = record_read::state_of(state.first_chunk().unwrap());
    let released = calls_hold::release(g, &state[STATE..], s);
    told(released, state)
}
