// Writes a glass: drawn with half blocks, or as a PBM file, as each of the arguments asks. Standard input has its 224 bytes and then
// the note that is written below it, at most 256 bytes.
#![tactic(auto)]

use std::env::Env;
use std::io;
use std::io::{Eprint, Print};
use view_io::Stop;

// Writes the glass as a word asks: drawn in a frame, with the note below it, or as a PBM file. Any other word is complained of.
fn write_as(
    rt: &(impl Print + Eprint),
    word: &[u8],
    glass: &[u8; 224],
    note: &[u8],
) -> io::Result<()> {
    match word {
        b"draw" => {
            let mut frame = [0u8; 4096];
            let n = view_picture::draw(&mut frame, glass);
            rt.write_all(frame.get(..n).unwrap_or(&frame))?;
            rt.write_all(note)
        }
        b"pbm" => rt.write_all(&view_picture::pbm(glass)),
        _ => eprintln!(rt; "an argument that is neither draw nor pbm"),
    }
}

// Writes the glass once for each of the program's arguments.
fn write_all(rt: &(impl Env + Print + Eprint), glass: &[u8; 224], note: &[u8]) -> io::Result<()> {
    let mut word = [0u8; 16];
    for i in 1..usize::MAX {
        let Some(n) = host_io::argument(rt, i, &mut word) else {
            break;
        };
        write_as(rt, &word[..n], glass, note)?;
    }
    Ok(())
}

// Reads the glass and its note, and writes it.
fn run(rt: &HostRuntime) -> Result<(), Stop> {
    let mut glass = [0u8; 224];
    let mut note = [0u8; 256];
    view_io::read_glass(&mut rt.stdin(), &mut glass)?;
    let n = host_io::read_full(&mut rt.stdin(), &mut note)?;
    write_all(rt, &glass, &note[..n])?;
    Ok(())
}

fn main(rt: HostRuntime) -> io::Result<()> {
    view_io::end(&rt, run(&rt))
}
