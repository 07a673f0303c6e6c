// What the programs share that read an input or their arguments: a buffer that is read full, and an argument as its bytes. Both are over the
// library's readers and its environment, and no memory is allocated.
#![tactic(auto)]

ghost use Rattle.std.specs.Prelude.{◌≡◌, ◌≤◌, length, IfOk, IfSome, OnErr};

use std::env::{Env, FillError};
use std::io;
use std::io::Read;

// Reads until a buffer is full or the input ends, and answers how many bytes it put at the buffer's start. An error is the reader's own, and
// leaves a buffer of the same length, whose bytes are no promise.
pub fn read_full(from: &mut impl Read, to: &mut [u8]) -> io::Result<usize>
    ensures count { IfOk result (λ n. n ≤ length to.new) }
    ensures err { OnErr result (length to.new ≡ length to.old) }
{
    // no chain is plainer: each turn goes on by as many bytes as the reader gave, which may be fewer than were asked for
    let mut done = 0;
    while done < to.len() {
        let n = from.read(&mut to[done..])?;
        if n == 0 {
            break;
        }
        done += n;
    }
    Ok(done)
}

// Puts argument i at the start of a word and answers its length, 0 if it is longer than the word; none behind the last argument.
// The 0 stays: it is what this function, which README speaks of, answered, and the programs take such an argument as an unknown one.
pub fn argument(env: &impl Env, i: usize, word: &mut [u8]) -> Option<usize>
    ensures { IfSome result (λ n. n ≤ length word.new) }
{
    match env.arg(i, word) {
        Ok(n) => Some(n),
        Err(FillError::TooLong) => Some(0),
        Err(FillError::NotPresent) => None,
    }
}
