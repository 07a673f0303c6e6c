// What the calls from C share, for any module: the answers, and the record that a call leaves. docs/RECORD.md has the layout.
// It may use record_write and record_bytes for the record. specs/Face.antt has the calls as C makes them, each a definition.
#![tactic(auto)]

ghost use Rattle.std.specs.Prelude.{◌≡◌, length};
ghost use Rattle.record_bytes.specs.Bytes.{record_length};
ghost use Rattle.face.specs.Face.{state_after, spans_after};

use paper::{Spans, State};
use record_bytes::STATE;

// The answer to a record of another length: no number of document 01.
pub const WRONG_LENGTH: u32 = 100;

// The answers are C's: numbers and no Result, and each field is there whatever the answer.

// What a feed answers: its number, what the last byte came to, commands carried out, commands answered 11 to 19.
#[repr(C)]
#[derive(Clone, Copy)]
pub struct PanelFed {
    pub answer: u32,
    pub outcome: u32,
    pub carried: usize,
    pub answered: usize,
}

// What a refresh answers: its number, and the bytes moved.
#[repr(C)]
#[derive(Clone, Copy)]
pub struct PanelRefreshed {
    pub answer: u32,
    pub moved: usize,
}

// What a receive answers: its number, the place where the data begin, how many they are, and the place after the telegram.
#[repr(C)]
#[derive(Clone, Copy)]
pub struct PanelReceived {
    pub answer: u32,
    pub first: usize,
    pub count: usize,
    pub after: usize,
}

// Writes the state that a call gave into a record, if its answer is 0, and leaves the downloads in it; a refused call leaves all of it.
#[tactic(auto, using(crate::proofs::Parts::state_long), unfolding(crate::specs::Face::record_after))]
pub fn keep(answer: u32, s: State, to: &mut [u8])
    requires { length to.old ≡ record_length }
    ensures { to.new ≡ state_after answer s to.old }
{
    if answer == 0 {
        record_write::encode(s, &mut to[..STATE]);
    }
}

// Writes the spans that a refresh gave, if its answer is 0: a refresh changes nothing else in the state.
// Not one function with `keep` that takes the writer: that is no shorter than these two lines, and its contract had to name each writer.
#[tactic(auto, using(crate::proofs::Parts::state_long), unfolding(crate::specs::Face::spans_after))]
pub fn keep_spans(answer: u32, spans: Spans, to: &mut [u8])
    requires { length to.old ≡ record_length }
    ensures { to.new ≡ spans_after answer spans to.old }
{
    if answer == 0 {
        record_write::put_spans(spans, &mut to[..STATE]);
    }
}
