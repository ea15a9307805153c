//! The events of a flight, and the words that say them.
ghost use Rattle.text.specs.Table.{Numbers, ActivityNumbers, RuleNumbers, Commands, Events};

use crate::words::{Keyword, Word};
use frame::Command;
use rules::Rule;
use schedule::Activity;

/// What a line of a flight text says.
#[derive(Clone, Copy, Drop)]
pub enum Event {
    /// An instrument reads a value in the next tick.
    Read { instrument: u64, value: u64 },
    /// The whole frame of a telecommand comes up in the next tick.
    Up { number: u64, command: Command },
    /// Twelve numbers come up in the next tick, whole or not.
    Frame { numbers: [u64; 12] },
    /// Radiation changes a copy of a word, at once.
    Hit { copy: u64, word: u64, value: u64 },
    /// A tick.
    Tick,
}

/// The event that a line's words say, whatever its numbers are.
pub fn event_of(words: &[Word]) -> Option<Event>
    ensures { Events words.now result }
{
    match *words {
        [
            Word::Keyword(Keyword::Read),
            Word::Number(instrument),
            Word::Number(value),
        ] => Some(Event::Read { instrument, value }),
        [
            Word::Keyword(Keyword::Up),
            Word::Number(number),
            ref rest @ ..,
        ] => {
            let command = command_of(rest)?;
            Some(Event::Up { number, command })
        }
        [Word::Keyword(Keyword::Frame), ref rest @ ..] => {
            let numbers = numbers::<12>(rest)?;
            Some(Event::Frame { numbers })
        }
        [
            Word::Keyword(Keyword::Hit),
            Word::Number(copy),
            Word::Number(word),
            Word::Number(value),
        ] => Some(Event::Hit { copy, word, value }),
        [Word::Keyword(Keyword::Tick)] => Some(Event::Tick),
        _ => None,
    }
}

/// The command that words say, whatever its numbers are.
pub fn command_of(words: &[Word]) -> Option<Command>
    ensures { Commands words.now result }
{
    match *words {
        [
            Word::Keyword(Keyword::Put),
            Word::Number(place),
            Word::Number(number),
        ] => Some(Command::Put { place, number }),
        [Word::Keyword(Keyword::Later), ref rest @ ..] => {
            let activity = activity_of(rest)?;
            Some(Command::Later { activity })
        }
        [Word::Keyword(Keyword::Forget)] => Some(Command::Forget),
        [Word::Keyword(Keyword::Sleep)] => Some(Command::Sleep),
        [Word::Keyword(Keyword::Wake)] => Some(Command::Wake),
        [
            Word::Keyword(Keyword::Rule),
            Word::Number(index),
            ref rest @ ..,
        ] => {
            let rule = rule_of(rest)?;
            Some(Command::SetRule { index, rule })
        }
        _ => None,
    }
}

// The activity that three numbers say.
fn activity_of(words: &[Word]) -> Option<Activity>
    ensures { ActivityNumbers words.now result }
{
    let numbers = numbers::<3>(words)?;
    Some(Activity::from(numbers))
}

// The rule that seven numbers say, if it says the same: its marks are 1 or 0.
fn rule_of(words: &[Word]) -> Option<Rule>
    ensures { RuleNumbers words.now result }
{
    let numbers = numbers::<7>(words)?;
    let rule = Rule::from(numbers);
    (<[u64; 7]>::from(rule) == numbers).then_some(rule)
}

/// So many numbers, and nothing else.
pub fn numbers<const N: usize>(words: &[Word]) -> Option<[u64; N]>
    ensures { Numbers N words.now result }
{
    if words.len() != N {
        return None;
    }
    let mut numbers = [0; N];
    for (i, word) in words.iter().enumerate() {
        numbers[i] = word.amount()?;
    }
    Some(numbers)
}
