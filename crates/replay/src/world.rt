// What the stored calls find and leave, and the playing of them.
ghost use Rattle.std.specs.Prelude.{◌≤◌, length};

use crate::entry::{self, Call, Entry};
use record_bytes::RECORD;
use replay_input::{Difference, Stored};

// The longest memory and glass that are lent.
const ROOM: usize = 4096;

// Record, memory and glass, and how much of the two is lent, which changes from call to call while what lies behind it stays; the stored bytes,
// with the font's place and length among them; and how many calls were played.
#[derive(Drop)]
pub struct World<'a> {
    record: [u8; RECORD],
    mem: [u8; ROOM],
    mem_lent: usize,
    glass: [u8; ROOM],
    glass_lent: usize,
    all: &'a [u8],
    font_at: usize,
    font_lent: usize,
    pub calls: u64,
}

impl<'a> World<'a> {
    // Before the first entry all is 0.
    pub fn new(all: &'a [u8]) -> World<'a> {
        World {
            record: [0; RECORD],
            mem: [0; ROOM],
            mem_lent: 0,
            glass: [0; ROOM],
            glass_lent: 0,
            all,
            font_at: 0,
            font_lent: 0,
            calls: 0,
        }
    }

    // Plays all entries, up to the first call that differs.
    pub fn play_all(&mut self) -> Result<(), Difference> {
        let mut from = Stored { rest: self.all };
        while !from.rest.is_empty() {
            let entry = entry::read(&mut from);
            self.play(entry, &mut from)?;
        }
        Ok(())
    }

    // Plays an entry; a call is held to what is stored next.
    fn play(&mut self, entry: Entry<'_>, from: &mut Stored<'_>) -> Result<(), Difference>
        ensures { length from.new.rest.now ≤ length from.old.rest.now }
    {
        match entry {
            Entry::Kept => {}
            Entry::FontAt(at) => self.font_at = at,
            Entry::Memory(n) => self.mem_lent = n,
            Entry::Font(n) => self.font_lent = n,
            Entry::Glass(n) => self.glass_lent = n,
            Entry::New => self.begin(),
            Entry::Record(at, byte) => self.put(at, byte),
            Entry::Call(call) => {
                self.calls = self.calls.wrapping_add(1);
                self.make(call, from)?;
                from.hold_sums(&self.record, &self.mem, &self.glass)?;
            }
        }
        Ok(())
    }

    // Memory, glass and record of a new world: a start with no memory leaves the initial state, nothing marked.
    fn begin(&mut self) {
        self.mem.fill(0x3C);
        self.glass.fill(0xC3);
        panel_c::panel_start(&mut self.record, &mut []);
    }

    // Changes a byte of the record.
    fn put(&mut self, at: usize, byte: u8) {
        if let Some(place) = self.record.get_mut(at) {
            *place = byte;
        }
    }

    // Makes a call on the C face, and holds what it gives to what is stored next.
    fn make(&mut self, call: Call<'_>, from: &mut Stored<'_>) -> Result<(), Difference>
        ensures { length from.new.rest.now ≤ length from.old.rest.now }
    {
        let m = self.mem_lent.min(ROOM);
        let g = self.glass_lent.min(ROOM);
        // whole first: a part of a field that is an array can't be lent beside another field yet
        let mem = &mut self.mem[..];
        let glass = &mut self.glass[..];
        match call {
            Call::Start => {
                let answer = panel_c::panel_start(&mut self.record, &mut mem[..m]);
                from.hold_numbers(answer, 9, 0, 0)
            }
            Call::Feed(piece) => {
                let font = replay_input::part(self.all, self.font_at, self.font_lent);
                let f = panel_c::panel_feed(&mut self.record, &mut mem[..m], font, piece);
                from.hold_numbers(f.answer, f.outcome, f.carried, f.answered)
            }
            Call::Hold(window) => {
                let answer = panel_c::panel_hold(&mut self.record, window);
                from.hold_numbers(answer, 9, 0, 0)
            }
            Call::Release => {
                let answer = panel_c::panel_release(&mut self.record);
                from.hold_numbers(answer, 9, 0, 0)
            }
            Call::Refresh => {
                let f = panel_c::panel_refresh(&mut self.record, &mem[..m], &mut glass[..g]);
                from.hold_numbers(f.answer, 9, f.moved, 0)
            }
            Call::Receive(address, piece) => {
                let f = panel_c::panel_receive(piece, address);
                from.hold_places(f.answer, f.first, f.count, f.after)
            }
        }
    }
}
