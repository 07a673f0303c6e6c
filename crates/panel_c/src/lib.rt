// The C face: document 01's five calls over byte slices, for the 112 by 16 module, the state and its downloads as a record of 259
// bytes, and the call that finds a link's telegrams. No call has a `requires`. panel_c_c exports them to C under the same names.
// It may use modules for the module's value, and the calls of face_start, face_glass, face_hold and calls_feed for it; for a feed also
// record_read and face for the record, numbers for the answers; face_link for the telegrams.
// Each contract is one line: what a call answers and leaves is the definition of that call in face's specs/Face.antt.
#![tactic(auto)]

ghost use Rattle.std.specs.Prelude.{◌≡◌};
ghost use Rattle.paper.specs.Panel.{panel};
ghost use Rattle.face.specs.Face.{starting, start_c, feeding, feed_c, calling, hold_c, release_c, refreshing, refresh_c, receive_c};

use face::{PanelFed, PanelReceived, PanelRefreshed, WRONG_LENGTH};
use record_bytes::{RECORD, STATE};

// Starts a panel. 100: the record is not 259 bytes; 1: the memory is not 1,024, and the record is the initial one.
pub fn panel_start(state: &mut [u8], mem: &mut [u8]) -> u32
    ensures { starting result state.new mem.new ≡ start_c panel state.old mem.old }
{
    face_start::start(modules::small(), state, mem)
}

// Feeds a piece of the stream. 100: the record is not 259 bytes; then 1, 2, 8.
// It is made here, for this module: through a function for any module the compiler loses the figures in the loop over the piece.
pub fn panel_feed(state: &mut [u8], mem: &mut [u8], font: &[u8], piece: &[u8]) -> PanelFed
    ensures { feeding result state.new mem.new ≡ feed_c panel state.old mem.old font.now piece.now }
{
    if state.len() != RECORD {
        return PanelFed {
            answer: WRONG_LENGTH,
            outcome: 9,
            carried: 0,
            answered: 0,
        };
    }
    let s = record_read::state_of(state.first_chunk().unwrap());
    let f = calls_feed::feed(modules::small(), mem, &mut state[STATE..], font, piece, s);
    let answer = numbers::refusal_number(f.refusal);
    face::keep(answer, f.state, state);
    PanelFed {
        answer,
        outcome: numbers::outcome_number(f.outcome),
        carried: f.carried,
        answered: f.answered,
    }
}

// Holds a window. 100: the record is not 259 bytes; then 8, 6, 4, 5.
pub fn panel_hold(state: &mut [u8], window: usize) -> u32
    ensures { calling result state.new ≡ hold_c panel state.old window }
{
    face_hold::hold(modules::small(), state, window)
}

// Releases the held window. 100: the record is not 259 bytes; then 8, 7.
pub fn panel_release(state: &mut [u8]) -> u32
    ensures { calling result state.new ≡ release_c panel state.old }
{
    face_hold::release(modules::small(), state)
}

// Brings the glass in step. 100: the record is not 259 bytes; then 1, 3, 8.
pub fn panel_refresh(state: &mut [u8], mem: &[u8], glass: &mut [u8]) -> PanelRefreshed
    ensures { refreshing result state.new glass.new ≡ refresh_c panel state.old mem.now glass.old }
{
    face_glass::refresh(modules::small(), state, mem, glass)
}

// Finds the first telegram for an address in a received piece. 20: the address is not 0 to 15; 21: there is none.
pub fn panel_receive(piece: &[u8], address: usize) -> PanelReceived
    ensures { result ≡ receive_c piece.now address }
{
    face_link::receive(piece, address)
}
