ghost use Rattle.std.specs.Prelude.{Some};
ghost use Rattle.mission.specs.Lines.{line_of};

use onboard::MEMORY_LENGTH;
use refusal::Refusal;
use std::fmt;
use text::list;

/// A satellite in flight: its memory, and what its next tick will be given.
#[derive(Clone, Copy)]
pub struct Aloft {
    pub memory: [u64; MEMORY_LENGTH],
    pub readings: [u16; 16],
    pub frame: Option<[u64; 12]>,
}

/// What a tick gives: its report, or why it was refused.
#[derive(Clone, Copy, Drop)]
pub struct Output(pub Result<[u64; 8], Refusal>);

/// The line of an output, without its end.
impl fmt::Display for Output {
    ghost output = { λ o. Some (line_of o) };

    fn fmt<W: fmt::Write>(&self, f: &mut fmt::Formatter<W>) -> fmt::Result {
        match &self.0 {
            Ok(numbers) => {
                // No pattern: one for the rest of an array behind a reference gets no proof.
                let first = numbers[0];
                write!(f, "{first}")?;
                list(&numbers[1..], f)
            }
            Err(refusal) => write!(f, "{refusal}"),
        }
    }
}
