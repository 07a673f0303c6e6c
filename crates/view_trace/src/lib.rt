// The commands of a recorded stream or link, a line for each: its place in the input, its bytes, its kind, the number and words of its
// outcome, and the current window with its cursor after it. They are fed to a fresh panel byte by byte, part by part: a stream is one
// part from its first byte to its end, a link has a part for each telegram to the address. A command may go on in the next part, so its
// bytes are kept beside. One that is half read at the end has a line too, with 9. It uses the panel's calls, view_parts and view_line.
#![tactic(auto)]

ghost use Rattle.std.specs.Prelude.{◌≤◌, length};

use arrayvec::ArrayVec;
use paper::{Outcome, State};
use std::io;
use std::io::Print;
use view_line::CommandLine;
use view_parts::Part;

// A panel whose commands are traced: what its calls are lent, its state, and of the command that is half read its bytes and the place of
// the first. The longest command, a define of 224 characters, has 1,797 bytes.
#[derive(Drop)]
struct Traced<'a> {
    font: &'a [u8],
    mem: [u8; 1024],
    store: [u8; 144],
    state: State,
    command: ArrayVec<u8, 2048>,
    place: usize,
}

impl Traced<'_> {
    // A fresh panel.
    fn start(font: &[u8]) -> Traced<'_> {
        let mut mem = [0u8; 1024];
        let mut store = [0u8; 144];
        let a = panel::start(&mut mem, &mut store);
        Traced {
            font,
            mem,
            store,
            state: a.state,
            command: ArrayVec::new(),
            place: 0,
        }
    }

    // Keeps a byte of the command; the first one says where it begins.
    fn keep(&mut self, place: usize, b: u8) {
        if self.command.is_empty() {
            self.place = place;
        }
        if !self.command.is_full() {
            self.command.push(b);
        }
    }

    // Writes the command's line.
    fn tell(&self, rt: &impl Print, outcome: Outcome) -> io::Result<()> {
        let line = CommandLine {
            place: self.place,
            command: self.command.as_slice(),
            outcome,
            state: self.state,
        };
        view_line::write(rt, line)
    }

    // Feeds the byte at a place of the input, and writes the line of the command that it finishes.
    fn feed(&mut self, rt: &impl Print, place: usize, b: u8) -> io::Result<()> {
        self.keep(place, b);
        let f = panel::feed(&mut self.mem, &mut self.store, self.font, &[b], self.state);
        self.state = f.state;
        if f.outcome != Outcome::Unfinished {
            self.tell(rt, f.outcome)?;
            self.command.clear();
        }
        Ok(())
    }

    // Feeds a part of the input.
    fn feed_part(&mut self, rt: &impl Print, input: &[u8], part: Part) -> io::Result<()>
        requires { part.end ≤ length input.now }
    {
        for i in part.first..part.end {
            self.feed(rt, i, input[i])?;
        }
        Ok(())
    }
}

// Feeds the input, a link where there is an address, to a fresh panel and writes the lines.
// A `while`: each part says where the next one is looked for, and finding it writes lines, which may fail.
pub fn trace(rt: &impl Print, font: &[u8], input: &[u8], address: Option<usize>) -> io::Result<()> {
    let mut traced = Traced::start(font);
    let mut place = 0;
    while place < input.len() {
        let part = view_parts::next_part(rt, input, place, address)?;
        traced.feed_part(rt, input, part)?;
        place = part.after;
    }
    if traced.command.is_empty() {
        return Ok(());
    }
    traced.tell(rt, Outcome::Unfinished)
}
