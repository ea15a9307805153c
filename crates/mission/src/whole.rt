ghost use Rattle.std.specs.Prelude.{◌≡◌, MatchResult, OnOk};
ghost use Rattle.std.specs.Fmt.{IsPlainFormatter, WritesOnOk};
ghost use Rattle.mission.specs.declared.whole.Failure.TheVariants.{Unread, Unwritten};
ghost use Rattle.text.specs.declared.fault.Fault.TheVariants.{Memory};
ghost use Rattle.mission.specs.Run.{FlownThrough, Storied, Broke, Untouched, line_told};

use crate::aloft::{Aloft, Output};
use std::alloc::{AllocError, Global};
use std::fmt;
use text::{Event, Fault, Statements, check};

/// Why a text is not flown, or not to its end.
#[derive(Clone, Copy, Drop)]
pub enum Failure {
    /// It cannot be read. Where a line is at fault, nothing has flown.
    Unread(Fault),
    /// What was to be told could not be written.
    Unwritten,
}

impl From<Fault> for Failure {
    ghost from_gives = { λ f r. r ≡ Unread f };

    fn from(fault: Fault) -> Failure {
        Failure::Unread(fault)
    }
}

impl From<AllocError> for Failure {
    ghost from_gives = { λ _ r. r ≡ Unread Memory };

    fn from(_e: AllocError) -> Failure {
        Failure::Unread(Fault::Memory)
    }
}

impl From<fmt::Error> for Failure {
    ghost from_gives = { λ _ r. r ≡ Unwritten };

    fn from(_e: fmt::Error) -> Failure {
        Failure::Unwritten
    }
}

/// Flies a text from launch and writes a line for each tick, as it goes. The whole text is read
/// once before anything flies, and nothing of it is kept. Where the hits are tolerated, the lines
/// are the story's reports.
pub fn fly_lines<W: fmt::Write>(
    heap: Global,
    text: &[u8],
    out: &mut fmt::Formatter<W>,
) -> Result<(), Failure>
    ensures flown { MatchResult result (λ _. IsPlainFormatter out.old →
        FlownThrough W.Write.write_str_gives text.now out.old out.new)
        (λ f. Broke text.now f × Untouched f out.old out.new) }
    ensures flies { OnOk result (IsPlainFormatter out.old →
        Storied W.Write.write_str_gives text.now out.old out.new) }
{
    check(heap, text)?;
    run(heap, text, out)
}

// Flies a text, line by line, and writes what each tick gives.
fn run<W: fmt::Write>(heap: Global, text: &[u8], out: &mut fmt::Formatter<W>) -> Result<(), Failure>
    ensures { MatchResult result (λ _. IsPlainFormatter out.old →
        FlownThrough W.Write.write_str_gives text.now out.old out.new) (Broke text.now) }
{
    let mut aloft = Aloft::launched();
    for read in Statements::<Event>::new(heap, text) {
        if let Some(event) = read? {
            tell(aloft.step(event), out)?;
        }
    }
    Ok(())
}

// Writes the line of a tick; an event that is no tick has none.
fn tell<W: fmt::Write>(output: Option<Output>, out: &mut fmt::Formatter<W>) -> fmt::Result
    ensures { WritesOnOk W.Write.write_str_gives out.old result (line_told output) out.new }
{
    match output {
        Some(output) => writeln!(out, "{output}"),
        None => Ok(()),
    }
}
