//! What the lines of a text say, whatever may be said in it.
ghost use Rattle.std.specs.Prelude.{◌≡◌, false, MatchResult};
ghost use Rattle.std.specs.Iterator.{item_count};
ghost use Rattle.text.specs.Cut.{stops, cut};
ghost use Rattle.text.specs.declared.cut.Stop.TheVariants.{Line};
ghost use Rattle.text.specs.Lines.{rest, line_number, IsNumbered, left_by, reads_next};
ghost use Rattle.text.specs.Text.{Language, Readable, IsSaid, Unsaid, Reads, Tells, Fails};
ghost use Rattle.text.specs.Words.{line_words};

use crate::cut::{Pieces, Stop};
use crate::fault::{Expected, Fault, Unread};
use crate::words::{Word, words_of};
use std::alloc::Global;
use std::iter::Enumerate;
use std::marker::PhantomData;

/// What a line may say: an event of a flight, or a command.
pub trait Statement: Copy {
    ghost language: { Language Self };

    /// What has these words, where a frame has come up since the last tick or not.
    fn of_words(words: &[Word], heard: bool) -> Result<Self, Expected>
        ensures { MatchResult result (IsSaid language heard words.now)
            (Unsaid language heard words.now) };

    /// Whether a frame has come up since the last tick, after this too.
    fn heard_after(self, heard: bool) -> bool
        ensures { result ≡ language.heard_after heard self };
}

/// Reads a line, after a frame in this tick or not; nothing where it has no words.
pub fn read_line<S: Statement>(heap: Global, line: &[u8], heard: bool) -> Result<Option<S>, Unread>
    ensures { Reads S.language heard (line_words line.now) result }
{
    let words = words_of(heap, line)?;
    if words.is_empty() {
        return Ok(None);
    }
    let said = S::of_words(words.as_slice(), heard)?;
    Ok(Some(said))
}

/// What each line of a text says, in order, or why it is not read.
#[derive(Drop)]
pub struct Statements<'a, S> {
    heap: Global,
    lines: Enumerate<Pieces<'a>>,
    heard: bool,
    said: PhantomData<S>,
}

impl<'a, S: Statement> Statements<'a, S> {
    pub fn new(heap: Global, text: &'a [u8]) -> Statements<'a, S>
        ensures lines { rest result ≡ cut (stops Line) text.now }
        ensures line { line_number result ≡ 0 }
        ensures heard { result.heard ≡ false }
        ensures numbered { IsNumbered result }
    {
        Statements {
            heap,
            lines: Pieces::new(text, Stop::Line).enumerate(),
            heard: false,
            said: PhantomData,
        }
    }
}

impl<'a, S: Statement> Iterator for Statements<'a, S> {
    type Item = Result<Option<S>, Fault>;

    ghost can_next = { IsNumbered };

    ghost next_gives = { reads_next S.language };

    ghost remaining = { item_count rest };

    fn next(&mut self) -> Option<Result<Option<S>, Fault>> {
        let (n, line) = self.lines.next()?;
        // That it says nothing is told at once: what `read_line` answers is copied as a whole.
        if line.is_empty() {
            return Some(Ok(None));
        }
        let read = read_line::<S>(self.heap, line, self.heard);
        self.heard = heard_on(self.heard, read);
        Some(read.map_err(|unread| unread.at(n)))
    }
}

// Whether a frame has come up since the last tick, after a line too.
fn heard_on<S: Statement>(heard: bool, read: Result<Option<S>, Unread>) -> bool
    ensures { result ≡ left_by S.language heard read }
{
    match read {
        Ok(Some(said)) => said.heard_after(heard),
        _ => heard,
    }
}

/// What a text says, in order; or its first line at fault, counted from 0, and what was expected
/// there. `Readable` is asked here and is no law of `Statement`: a law is proved in specs/, where
/// no tactic may stand.
pub fn parse_all<S: Statement>(heap: Global, text: &[u8]) -> Result<Vec<S>, Fault>
    requires { Readable S.language }
    ensures { MatchResult result (λ v. Tells S.language text.now v.items)
        (Fails S.language text.now) }
{
    let mut all = Vec::new(heap);
    for read in Statements::<S>::new(heap, text) {
        if let Some(said) = read? {
            all.push(said)?;
        }
    }
    Ok(all)
}
