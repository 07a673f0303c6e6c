// Numbers: document 01's number of each refusal and each outcome, what an outcome counts as, and a 16-bit number of its bytes.
// It may use the paper alone.
// Calls, C and the viewer ask here; each contract is the paper's definition of the same name.
#![tactic(auto)]

ghost use Rattle.std.specs.Prelude.{◌≡◌};
ghost use Rattle.paper.specs.Reading.{word16};
ghost use Rattle.paper.specs.Numbers.{refusal_number, outcome_number, carried_by, answered_by};

use paper::{Outcome, Refusal};

// The number of a refusal; 0 for a call that is not refused.
// A match and not numbers in paper's enum: the edit hold_while_held_is_5 gives two refusals one number, which an enum refuses itself.
#[tactic(auto, unfolding(paper::specs::Numbers::refusal_number))]
pub fn refusal_number(r: Refusal) -> u32
    ensures { result ≡ refusal_number r }
{
    match r {
        Refusal::Accepted => 0,
        Refusal::MemoryLength => 1,
        Refusal::FontLength => 2,
        Refusal::GlassLength => 3,
        Refusal::NoSuchWindow => 4,
        Refusal::UndefinedWindow => 5,
        Refusal::HeldAlready => 6,
        Refusal::NotHeld => 7,
        Refusal::BrokenState => 8,
        Refusal::NoSuchAddress => 20,
        Refusal::NoTelegram => 21,
    }
}

// The number of an outcome.
// A match as above: the edits dropped_as_not_stored and not_stored_as_not_defined give two outcomes one number.
#[tactic(auto, unfolding(paper::specs::Numbers::outcome_number))]
pub fn outcome_number(o: Outcome) -> u32
    ensures { result ≡ outcome_number o }
{
    match o {
        Outcome::Unfinished => 9,
        Outcome::Carried => 10,
        Outcome::OutOfDomain => 11,
        Outcome::Cancelled => 12,
        Outcome::Unknown => 13,
        Outcome::NotCarried => 14,
        Outcome::WindowHeld => 15,
        Outcome::TooLarge => 16,
        Outcome::NotDefined => 17,
        Outcome::Dropped => 18,
        Outcome::NotStored => 19,
    }
}

// What an outcome adds to the commands carried out.
#[tactic(auto, unfolding(paper::specs::Numbers::carried_by, paper::specs::Numbers::outcome_number))]
pub fn carried_by(o: Outcome) -> usize
    ensures { result ≡ carried_by o }
{
    usize::from(o == Outcome::Carried)
}

// What an outcome adds to the commands answered 11 and above.
#[tactic(auto, unfolding(paper::specs::Numbers::answered_by))]
pub fn answered_by(o: Outcome) -> usize
    ensures { result ≡ answered_by o }
{
    usize::from(11 <= outcome_number(o))
}

// A 16-bit number of its two bytes, low byte first.
pub fn word16(low: u8, high: u8) -> u16
    ensures { result ≡ word16 low high }
{
    u16::from_le_bytes([low, high])
}
