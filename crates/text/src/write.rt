//! Writes a flight text.
ghost use Rattle.std.specs.Prelude.{◌≡◌, true, false, map, drop, IfOk, Some, string_bytes};
ghost use Rattle.text.specs.declared.words.Word.TheVariants.{Number};
ghost use Rattle.std.specs.Fmt.{WritesOnOk};
ghost use Rattle.text.specs.Table.{command_words, event_words};
ghost use Rattle.text.specs.Text.{flights, IsLawful, Readable};
ghost use Rattle.text.specs.Words.{spelt};
ghost use Rattle.text.specs.Render.{listed, rendered, Only};

use crate::event::Event;
use crate::statement::Statement;
use frame::Command;
use std::alloc::{AllocError, Global};
use std::fmt;

/// A text that says the events, one to a line. If they are lawful, parsing it gives them back.
pub fn render(heap: Global, events: &[Event]) -> Result<String, AllocError>
    ensures text { IfOk result (λ s. string_bytes s ≡ rendered event_words events.now) }
    ensures back { IfOk result (λ s. IsLawful flights events.now →
        Only flights (string_bytes s) events.now) }
{
    lines_of::<Event, Event>(heap, events)
}

/// What a text says, one to a line, each written by the line that is made of it.
pub fn lines_of<S: Statement, L: From<S> + fmt::Display + Drop>(
    heap: Global,
    said: &[S],
) -> Result<String, AllocError>
    requires readable { Readable S.language }
    requires written { (x : S) (line : L) → L.from_gives x line →
        L.output line ≡ Some (spelt (S.language.words x)) }
    ensures text { IfOk result (λ s. string_bytes s ≡ rendered S.language.words said.now) }
    ensures back { IfOk result (λ s. IsLawful S.language said.now →
        Only S.language (string_bytes s) said.now) }
{
    let mut out = String::new(heap);
    for one in said {
        let line = L::from(*one);
        writeln!(out, "{line}")?;
    }
    Ok(out)
}

impl fmt::Display for Event {
    ghost output = { λ e. Some (spelt (event_words e)) };

    fn fmt<W: fmt::Write>(&self, f: &mut fmt::Formatter<W>) -> fmt::Result {
        match self {
            Event::Read { instrument, value } => write!(f, "read {instrument} {value}"),
            Event::Up { number, command } => {
                let order = Order::from(*command);
                write!(f, "up {number} {order}")
            }
            Event::Frame { numbers } => {
                write!(f, "frame")?;
                list(numbers, f)
            }
            Event::Hit { copy, word, value } => write!(f, "hit {copy} {word} {value}"),
            Event::Tick => write!(f, "tick"),
        }
    }
}

/// A command as a text says it.
#[derive(Clone, Copy, Drop)]
pub struct Order(pub Command);

impl From<Command> for Order {
    ghost from_gives = { λ c r. r ≡ record { 0 = c } };

    fn from(command: Command) -> Order {
        Order(command)
    }
}

impl fmt::Display for Order {
    ghost output = { λ o. Some (spelt (command_words o.0)) };

    fn fmt<W: fmt::Write>(&self, f: &mut fmt::Formatter<W>) -> fmt::Result {
        match self.0 {
            Command::Put { place, number } => write!(f, "put {place} {number}"),
            Command::Later { activity } => {
                write!(f, "later")?;
                list(&<[u64; 3]>::from(activity), f)
            }
            Command::Forget => write!(f, "forget"),
            Command::Sleep => write!(f, "sleep"),
            Command::Wake => write!(f, "wake"),
            Command::SetRule { index, rule } => {
                let numbers = <[u64; 7]>::from(rule);
                write!(f, "rule {index}")?;
                list(&numbers, f)
            }
            Command::Unknown { kind } => write!(f, "? {kind}"),
        }
    }
}

/// Writes each number after a space.
pub fn list<W: fmt::Write>(numbers: &[u64], f: &mut fmt::Formatter<W>) -> fmt::Result
    ensures { WritesOnOk W.Write.write_str_gives f.old result (listed numbers.now) f.new }
{
    for n in numbers {
        write!(f, " {n}")?;
    }
    Ok(())
}
