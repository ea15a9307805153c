//! Reads a flight text.
ghost use Rattle.std.specs.Prelude.{◌≡◌, List, MatchResult};
ghost use Rattle.text.specs.Law.{bounded as bounds};
ghost use Rattle.text.specs.Table.{event_words, Finds};
ghost use Rattle.text.specs.Text.{by_first, flights, Tells, Fails};

use crate::event::{Event, event_of};
use crate::fault::{Expected, Fault};
use crate::law::{bounded, brings, heard_after};
use crate::statement::{Statement, Statements, parse_all};
use crate::words::{Keyword, Word};
use std::alloc::Global;

/// The events of a text, in order; or its first line at fault, counted from 0, and what was
/// expected there.
pub fn parse(heap: Global, text: &[u8]) -> Result<Vec<Event>, Fault>
    ensures { MatchResult result (λ v. Tells flights text.now v.items) (Fails flights text.now) }
{
    parse_all(heap, text)
}

/// Reads a whole text and keeps nothing of it: whether it can be read, or its first line at fault.
pub fn check(heap: Global, text: &[u8]) -> Result<(), Fault>
    ensures { MatchResult result (λ _. (es : List Event) × Tells flights text.now es)
        (Fails flights text.now) }
{
    for read in Statements::<Event>::new(heap, text) {
        let _ = read?;
    }
    Ok(())
}

impl Statement for Event {
    ghost language = { flights };

    fn of_words(words: &[Word], heard: bool) -> Result<Event, Expected> {
        let event = bounded_event(words).ok_or(wanted(words))?;
        if heard && brings(event) {
            return Err(Expected::TickFirst);
        }
        Ok(event)
    }

    fn heard_after(self, heard: bool) -> bool {
        heard_after(heard, self)
    }
}

// The event that words say, if its numbers lie in their bounds.
fn bounded_event(words: &[Word]) -> Option<Event>
    ensures { Finds event_words bounds words.now result }
{
    event_of(words).filter(|event| bounded(*event))
}

// What a line with these words should have been, by the first of them.
fn wanted(words: &[Word]) -> Expected
    ensures { result ≡ by_first words.now }
{
    match words {
        [Word::Keyword(Keyword::Read), ..] => Expected::Read,
        [Word::Keyword(Keyword::Up), ..] => Expected::Up,
        [Word::Keyword(Keyword::Frame), ..] => Expected::Frame,
        [Word::Keyword(Keyword::Hit), ..] => Expected::Hit,
        [Word::Keyword(Keyword::Tick), ..] => Expected::Tick,
        _ => Expected::Event,
    }
}
