// The lines of a trace. A command's: its place, its bytes, its kind, the number and words of its outcome, and the current window with its
// cursor. A telegram's, or that of bytes that are no telegram's: place, bytes and kind in the same columns, and what was done with them.
// It uses the paper, values in columns, the kinds, the numbers, and state_views for the cursor.
#![tactic(auto)]

ghost use Rattle.std.specs.Prelude.{◌≤◌, length};

use paper::{Outcome, State};
use std::io::Print;
use std::{fmt, io, str};
use view_kinds::Kind;
use view_text::Column;

const DIGITS: &[u8; 16] = b"0123456789ABCDEF";

// Writes at most 14 bytes, each after a blank and as two digits. They are put together here: one that is formatted by itself costs ten times
// as much, and a line has many.
fn write_hex<W: fmt::Write>(f: &mut fmt::Formatter<W>, bytes: &[u8]) -> fmt::Result
    requires { length bytes.now ≤ 14 }
{
    let mut text = [b' '; 42];
    for k in 0..bytes.len() {
        text[3 * k + 1] = DIGITS[usize::from(bytes[k] / 16)];
        text[3 * k + 2] = DIGITS[usize::from(bytes[k] % 16)];
    }
    match str::from_utf8(&text[..3 * bytes.len()]) {
        Ok(text) => f.write_str(text),
        Err(_) => Err(fmt::Error),
    }
}

// Bytes, each after a blank. Of more than 14, as an image, a download or a telegram has them, the first nine, and how many there are.
#[derive(Clone, Copy)]
struct Bytes<'a>(&'a [u8]);

impl fmt::Display for Bytes<'_> {
    fn fmt<W: fmt::Write>(&self, f: &mut fmt::Formatter<W>) -> fmt::Result {
        let n = self.0.len();
        if n <= 14 {
            return write_hex(f, self.0);
        }
        write_hex(f, &self.0[..9])?;
        write!(f, " .. {n} bytes")
    }
}

// A line's place and bytes; its kind stands behind them.
#[derive(Clone, Copy)]
struct Head<'a> {
    place: usize,
    bytes: &'a [u8],
}

impl fmt::Display for Head<'_> {
    fn fmt<W: fmt::Write>(&self, f: &mut fmt::Formatter<W>) -> fmt::Result {
        let place = Column(self.place, 7);
        write!(f, "{place}{}", Column(Bytes(self.bytes), 44))
    }
}

// The number of an outcome and its words.
#[derive(Clone, Copy)]
struct Told(Outcome);

impl fmt::Display for Told {
    fn fmt<W: fmt::Write>(&self, f: &mut fmt::Formatter<W>) -> fmt::Result {
        let number = numbers::outcome_number(self.0);
        write!(f, "{number} {}", view_kinds::outcome_words(self.0))
    }
}

// The current window and its cursor.
#[derive(Clone, Copy)]
struct Current(State);

impl fmt::Display for Current {
    fn fmt<W: fmt::Write>(&self, f: &mut fmt::Formatter<W>) -> fmt::Result {
        let k = self.0.selected;
        if k > 4 {
            return Ok(());
        }
        let c = state_views::cursor_of(self.0);
        match k {
            0 => write!(f, "base ({},{})", c.x, c.y),
            _ => write!(f, "window {k} ({},{})", c.x, c.y),
        }
    }
}

// A command's line: its outcome, and the state after it.
#[derive(Clone, Copy)]
pub struct CommandLine<'a> {
    pub place: usize,
    pub command: &'a [u8],
    pub outcome: Outcome,
    pub state: State,
}

impl fmt::Display for CommandLine<'_> {
    fn fmt<W: fmt::Write>(&self, f: &mut fmt::Formatter<W>) -> fmt::Result {
        let head = Head {
            place: self.place,
            bytes: self.command,
        };
        let kind = Column(Kind(self.command), 19);
        let told = Column(Told(self.outcome), 23);
        let current = Current(self.state);
        write!(f, "{head}{kind}{told}{current}")
    }
}

// The line of bytes from which no good telegram can be read.
#[derive(Clone, Copy)]
pub struct StretchLine<'a> {
    pub place: usize,
    pub bytes: &'a [u8],
}

impl fmt::Display for StretchLine<'_> {
    fn fmt<W: fmt::Write>(&self, f: &mut fmt::Formatter<W>) -> fmt::Result {
        let head = Head {
            place: self.place,
            bytes: self.bytes,
        };
        write!(f, "{head}{:<19}skipped", "broken stretch")
    }
}

// To whom a telegram is, FFh being all.
#[derive(Clone, Copy)]
struct To(u8);

impl fmt::Display for To {
    fn fmt<W: fmt::Write>(&self, f: &mut fmt::Formatter<W>) -> fmt::Result {
        match self.0 {
            0xFF => write!(f, "telegram to all"),
            to => write!(f, "telegram to {to}"),
        }
    }
}

// A good telegram's line: to whom it is, and whether it is ours, whose data are fed.
#[derive(Clone, Copy)]
pub struct TelegramLine<'a> {
    pub place: usize,
    pub bytes: &'a [u8],
    pub to: u8,
    pub ours: bool,
}

impl fmt::Display for TelegramLine<'_> {
    fn fmt<W: fmt::Write>(&self, f: &mut fmt::Formatter<W>) -> fmt::Result {
        let head = Head {
            place: self.place,
            bytes: self.bytes,
        };
        let to = Column(To(self.to), 19);
        let done = if self.ours { "fed" } else { "passed" };
        write!(f, "{head}{to}{done}")
    }
}

// Room for the longest line: a command's has 112 characters.
const ROOM: usize = 160;

// Writes a line.
pub fn write<L: fmt::Display + Drop>(rt: &impl Print, line: L) -> io::Result<()> {
    match view_text::text_of::<ROOM, _>(&format_args!("{line}\n")) {
        Some(text) => rt.write_all(text.as_str().as_bytes()),
        None => rt.println(line),
    }
}
