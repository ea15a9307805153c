//! What is said of a text that is not read.
ghost use Rattle.std.specs.Prelude.{◌≡◌, Some};
ghost use Rattle.std.specs.Fmt.{WritesOnOk};
ghost use Rattle.text.specs.Phrase.{for_programs, shown, misread_text};

use crate::cut::line_at;
use crate::fault::Fault;
use refusal::Refusal;
use std::fmt;
use std::str::from_utf8;

/// A text that is not read, as a program says so: a line that programs know, and one for people.
#[derive(Clone, Copy, Drop)]
pub struct Misread<'a> {
    pub program: &'a str,
    /// Which text it is, in words that follow the number of a line.
    pub of: &'a str,
    pub text: &'a [u8],
    pub fault: Fault,
}

impl<'a> fmt::Display for Misread<'a> {
    ghost output = { λ m. Some (misread_text m) };

    fn fmt<W: fmt::Write>(&self, f: &mut fmt::Formatter<W>) -> fmt::Result {
        announce(self.fault.refusal(), f)?;
        let program = self.program;
        match self.fault {
            Fault::Unreadable { line, expected } => {
                let of = self.of;
                let found = show(line_at(self.text, line));
                let number = line.saturating_add(1);
                write!(
                    f,
                    "{program}: line {number}{of}: expected {expected}; found {found}"
                )
            }
            Fault::Memory => write!(f, "{program}: no memory left"),
        }
    }
}

// The line that programs know, where something is refused.
fn announce<W: fmt::Write>(refusal: Option<Refusal>, f: &mut fmt::Formatter<W>) -> fmt::Result
    ensures { WritesOnOk W.Write.write_str_gives f.old result (for_programs refusal) f.new }
{
    match refusal {
        Some(refusal) => writeln!(f, "{refusal}"),
        None => Ok(()),
    }
}

// A line as people see it.
fn show(line: &[u8]) -> &str
    ensures { result.now ≡ shown line.now }
{
    from_utf8(line).unwrap_or("what is no text")
}
