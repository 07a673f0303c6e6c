// A value printed in a column of a line, and the text of a value, to be written at once. It uses nothing of this repository.
#![tactic(auto)]

ghost use Rattle.std.specs.Prelude.{◌≡◌, IfSome};

use arrayvec::ArrayString;
use std::fmt;
use std::fmt::Write;

// The text of a value, if it has no more than CAP bytes: written by one call, where the library prints a value byte by byte through a
// buffer of its own, and a long one in parts.
pub fn text_of<const CAP: usize, D: fmt::Display>(value: &D) -> Option<ArrayString<CAP>>
    ensures { IfSome result (λ t. IfSome (D.output value.now) (λ bytes. t.bytes ≡ bytes)) }
{
    let mut text = ArrayString::new();
    match write!(text, "{value}") {
        Ok(()) => Some(text),
        Err(_) => None,
    }
}

// What fills up columns: one blank at a time was a third of what a line costs.
const BLANKS: &str = "                ";

// A value in a column of so many characters: blanks fill it up, and a longer one stands as it is. It is of ASCII, a character to a byte.
#[derive(Clone, Copy)]
pub struct Column<T>(pub T, pub usize);

impl<T: fmt::Display> fmt::Display for Column<T> {
    fn fmt<W: fmt::Write>(&self, f: &mut fmt::Formatter<W>) -> fmt::Result {
        let mut counted = Counted { to: f, count: 0 };
        write!(counted, "{}", &self.0)?;
        let blanks = self.1.saturating_sub(counted.count);
        f.write_repeated(BLANKS, blanks / BLANKS.len())?;
        f.write_str(BLANKS.get(..blanks % BLANKS.len()).unwrap_or(BLANKS))
    }
}

// A writer that counts what goes through it.
#[derive(Drop)]
struct Counted<'a, W> {
    to: &'a mut fmt::Formatter<W>,
    count: usize,
}

impl<W: fmt::Write> fmt::Write for Counted<'_, W> {
    fn write_str(&mut self, s: &str) -> fmt::Result {
        self.count = self.count.saturating_add(s.len());
        self.to.write_str(s)
    }
}
