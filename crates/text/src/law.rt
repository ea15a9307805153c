//! Which events a text may say.
ghost use Rattle.std.specs.Prelude.{◌≡◌};
ghost use Rattle.text.specs.Law.{all_below, bounded as bounds, command_bounded, brings as bringing, heard_after as hears};

use crate::event::Event;
use frame::Command;
use rules::Rule;

/// How many words the satellite keeps: a hit strikes one of them.
pub const WORDS: u64 = 294;

const INSTRUMENTS: u64 = 16;

const READINGS: u64 = 0x1_0000;

const COPIES: u64 = 3;

// What a frame can carry lies below this.
const CARRIED: u64 = 0x1_0000_0000;

/// Whether the numbers of an event lie in their bounds.
pub fn bounded(event: Event) -> bool
    ensures { result ≡ bounds event }
{
    match event {
        Event::Read { instrument, value } => instrument < INSTRUMENTS && value < READINGS,
        Event::Up { number, command } => number < CARRIED && commandable(command),
        Event::Frame { .. } => true,
        Event::Hit { copy, word, .. } => copy < COPIES && word < WORDS,
        Event::Tick => true,
    }
}

/// Whether a text can say the command: an unknown one has no name.
pub fn commandable(command: Command) -> bool
    ensures { result ≡ command_bounded command }
{
    match command {
        Command::Put { place, number } => carried(&[place, number]),
        Command::Later { activity } => carried(&<[u64; 3]>::from(activity)),
        Command::Forget | Command::Sleep | Command::Wake => true,
        Command::SetRule { index, rule } => {
            let Rule {
                watches,
                limit,
                needs,
                place,
                number,
                ..
            } = rule;
            carried(&[index, watches, limit, needs, place, number])
        }
        Command::Unknown { .. } => false,
    }
}

// Whether a frame can carry these numbers.
fn carried(numbers: &[u64]) -> bool
    ensures { result ≡ all_below 4294967296 numbers.now }
{
    numbers.iter().all(|n| *n < CARRIED)
}

/// Whether a frame comes up.
pub fn brings(event: Event) -> bool
    ensures { result ≡ bringing event }
{
    matches!(event, Event::Up { .. } | Event::Frame { .. })
}

/// Whether a frame has come up since the last tick, after one event more.
pub fn heard_after(heard: bool, event: Event) -> bool
    ensures { result ≡ hears heard event }
{
    match event {
        Event::Up { .. } | Event::Frame { .. } => true,
        Event::Tick => false,
        Event::Read { .. } | Event::Hit { .. } => heard,
    }
}
