// Turns a font's text (fonts/panel.txt says how it is written) into the 1,120 bytes that a feed takes.
// Reads the text on standard input and writes the bytes on standard output; or says on standard error which line is wrong.
#![tactic(auto)]

mod head;
mod store;

ghost use Rattle.std.specs.Prelude.{◌<◌};

use std::{fmt, io};
use store::{Place, Store};

// What is wrong with a line.
#[derive(Clone, Copy, Debug)]
enum Flaw {
    BadCode,
    Twice,
    BadRow,
    CutShort,
}

impl fmt::Display for Flaw {
    fn fmt<W: fmt::Write>(&self, f: &mut fmt::Formatter<W>) -> fmt::Result {
        f.write_str(match self {
            Flaw::BadCode => "neither a code, 20 to FF, nor the word others",
            Flaw::Twice => "a second picture of this code",
            Flaw::BadRow => "not five dots, each # or .",
            Flaw::CutShort => "the text ends inside a picture of seven lines",
        })
    }
}

// What is wrong with a text, and in which line.
#[derive(Clone, Copy, Debug)]
struct BadLine {
    line: u64,
    flaw: Flaw,
}

impl fmt::Display for BadLine {
    fn fmt<W: fmt::Write>(&self, f: &mut fmt::Formatter<W>) -> fmt::Result {
        write!(f, "line {}: {}", self.line, self.flaw)
    }
}

// The picture that is being read: its place, and the rows that have come; one at least is missing.
#[derive(Clone, Copy)]
struct Picture {
    place: Place,
    rows: usize,
    dots: [[u8; 5]; 7],
    ghost unfinished: { rows < 7 },
}

// A line between pictures: the picture that it begins, if it says anything.
fn take_head(line: &[u8], store: &Store) -> Result<Option<Picture>, Flaw> {
    let Some(said) = head::said(line) else {
        return Ok(None);
    };
    if said.starts_with(b";") {
        return Ok(None);
    }
    let place = head::place_of(head::first_word(said)).ok_or(Flaw::BadCode)?;
    if store.has(place) {
        return Err(Flaw::Twice);
    }
    Ok(Some(Picture {
        place,
        rows: 0,
        dots: [[0; 5]; 7],
    }))
}

// A line of a picture; its seventh completes it.
fn take_row(line: &[u8], picture: Picture, store: &mut Store) -> Result<Option<Picture>, Flaw> {
    let Ok(row) = <[u8; 5]>::try_from(line) else {
        return Err(Flaw::BadRow);
    };
    if !view_glyph::is_row(&row) {
        return Err(Flaw::BadRow);
    }
    let Picture {
        place,
        rows,
        mut dots,
    } = picture;
    dots[rows] = row;
    if rows < 6 {
        return Ok(Some(Picture {
            place,
            rows: rows + 1,
            dots,
        }));
    }
    store.put(place, &dots);
    Ok(None)
}

// Reads a text, line for line.
fn read_all(text: &[u8]) -> Result<Store, BadLine> {
    let mut store = Store::new();
    let mut picture = None;
    let mut line: u64 = 0;
    // the last line feed ends a line and begins none
    let lines = text.strip_suffix(b"\n").unwrap_or(text);
    for bytes in lines.split(|b| *b == b'\n') {
        line = line.wrapping_add(1);
        let bytes = bytes.strip_suffix(b"\r").unwrap_or(bytes);
        let taken = match picture {
            None => take_head(bytes, &store),
            Some(begun) => take_row(bytes, begun, &mut store),
        };
        picture = taken.map_err(|flaw| BadLine { line, flaw })?;
    }
    if picture.is_some() {
        return Err(BadLine {
            line,
            flaw: Flaw::CutShort,
        });
    }
    Ok(store)
}

fn main(rt: HostRuntime) -> io::Result<()> {
    // room for the longest text, and a byte more
    let mut text = [0u8; 65536];
    let n = host_io::read_full(&mut rt.stdin(), &mut text)?;
    if n == 65536 {
        return rt.eprintln("a font's text of more than 65535 bytes");
    }
    match read_all(&text[..n]) {
        Ok(store) => rt.stdout().write_all(store.font().as_flattened()),
        Err(bad) => rt.eprintln(bad),
    }
}
