// The stored bytes that are still to be read, and a call held to what is stored of it. Past the end of the bytes stand zeros.
// It knows no panel.
#![tactic(auto)]

ghost use Rattle.std.specs.Prelude.{◌≡◌, ◌≤◌, length, get_or, take, drop};
ghost use Rattle.replay_input.specs.Stored.{four_at, number_at, after_number};

use std::error::Error;
use std::fmt;

// What a call gives or leaves that is not what is stored.
#[derive(Clone, Copy, Debug, PartialEq, Eq)]
pub enum Difference {
    Answer,
    Outcome,
    Count,
    Place,
    Memory,
    Glass,
    Record,
}

impl fmt::Display for Difference {
    fn fmt<W: fmt::Write>(&self, f: &mut fmt::Formatter<W>) -> fmt::Result {
        f.write_str(match self {
            Difference::Answer => "with another answer",
            Difference::Outcome => "with another outcome",
            Difference::Count => "with another count",
            Difference::Place => "with another place",
            Difference::Memory => "left another memory",
            Difference::Glass => "left another glass",
            Difference::Record => "left another record",
        })
    }
}

impl Error for Difference {}

// ---- the stored bytes

// So many bytes from a place on, or those that there are.
pub fn part(all: &[u8], at: usize, n: usize) -> &[u8]
    ensures { result.now ≡ take n (drop at all.now) }
{
    let rest = all.get(at..).unwrap_or(&[]);
    rest.get(..n).unwrap_or(rest)
}

// The stored bytes that are still to be read.
#[derive(Clone, Copy)]
pub struct Stored<'a> {
    pub rest: &'a [u8],
}

impl<'a> Stored<'a> {
    // So many bytes, or those that there are.
    pub fn piece(&mut self, n: usize) -> &'a [u8]
        ensures value { result.now ≡ take n self.old.rest.now }
        ensures rest { self.new.rest.now ≡ drop n self.old.rest.now }
    {
        let piece = part(self.rest, 0, n);
        self.rest = &self.rest[piece.len()..];
        piece
    }

    // A byte.
    pub fn byte(&mut self) -> u8
        ensures value { result ≡ get_or self.old.rest.now 0 0 }
        ensures rest { self.new.rest.now ≡ drop 1 self.old.rest.now }
    {
        let Some((first, rest)) = self.rest.split_first() else {
            return 0;
        };
        self.rest = rest;
        *first
    }

    // Four bytes, low byte first.
    pub fn four(&mut self) -> u32
        ensures value { result ≡ four_at self.old.rest.now }
        ensures rest { self.new.rest.now ≡ drop 4 self.old.rest.now }
    {
        u32::from_le_bytes([self.byte(), self.byte(), self.byte(), self.byte()])
    }

    // A number: one byte below 255, or 255 and four bytes.
    pub fn number(&mut self) -> u32
        ensures value { result ≡ number_at self.old.rest.now }
        ensures rest { self.new.rest.now ≡ after_number self.old.rest.now }
        ensures shorter { length self.new.rest.now ≤ length self.old.rest.now }
    {
        match self.byte() {
            255 => self.four(),
            one => u32::from(one),
        }
    }

    // ---- what a call gives and leaves

    // Holds a number to the one that is stored next.
    fn hold(&mut self, seen: u64, what: Difference) -> Result<(), Difference>
        ensures { length self.new.rest.now ≤ length self.old.rest.now }
    {
        if u64::from(self.number()) == seen {
            Ok(())
        } else {
            Err(what)
        }
    }

    // Holds the numbers that a call gives: n counts commands carried out, or bytes moved; m commands answered.
    pub fn hold_numbers(
        &mut self,
        answer: u32,
        outcome: u32,
        n: usize,
        m: usize,
    ) -> Result<(), Difference>
        ensures { length self.new.rest.now ≤ length self.old.rest.now }
    {
        self.hold(u64::from(answer), Difference::Answer)?;
        self.hold(u64::from(outcome), Difference::Outcome)?;
        self.hold(n as u64, Difference::Count)?;
        self.hold(m as u64, Difference::Count)
    }

    // Holds what a receive gives: its answer, where the data begin, how many they are, and the place after.
    pub fn hold_places(
        &mut self,
        answer: u32,
        first: usize,
        n: usize,
        after: usize,
    ) -> Result<(), Difference>
        ensures { length self.new.rest.now ≤ length self.old.rest.now }
    {
        self.hold(u64::from(answer), Difference::Answer)?;
        self.hold(first as u64, Difference::Place)?;
        self.hold(n as u64, Difference::Count)?;
        self.hold(after as u64, Difference::Place)
    }

    // Holds bytes that a call left to the sum that is stored next.
    fn hold_sum(&mut self, left: &[u8], what: Difference) -> Result<(), Difference>
        ensures { length self.new.rest.now ≤ length self.old.rest.now }
    {
        if self.four() == sum(left) {
            Ok(())
        } else {
            Err(what)
        }
    }

    // Holds the sums of what a call leaves.
    pub fn hold_sums(&mut self, record: &[u8], mem: &[u8], glass: &[u8]) -> Result<(), Difference>
        ensures { length self.new.rest.now ≤ length self.old.rest.now }
    {
        self.hold_sum(part(mem, 0, 1024), Difference::Memory)?;
        self.hold_sum(part(glass, 0, 224), Difference::Glass)?;
        self.hold_sum(record, Difference::Record)
    }
}

// FNV-1a, 32 bits.
fn sum(from: &[u8]) -> u32 {
    from.iter().fold(
        2166136261,
        |sum, b| (sum ^ u32::from(*b)).wrapping_mul(16777619),
    )
}
