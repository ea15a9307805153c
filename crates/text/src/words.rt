//! The words of a line.
ghost use Rattle.std.specs.Prelude.{◌≡◌, [], ◌∷◌, IfOk};
ghost use Rattle.text.specs.Number.{read_number, read_digits};
ghost use Rattle.text.specs.Table.{amount as amounts};
ghost use Rattle.text.specs.Words.{named as naming, worded, spaced, line_words};

use crate::cut::{Pieces, Stop, piece_len};
use std::alloc::{AllocError, Global};

/// A name that some line uses: `named` has how each is spelt.
#[derive(Clone, Copy, Drop)]
pub enum Keyword {
    Read,
    Up,
    Frame,
    Hit,
    Tick,
    Put,
    Later,
    Forget,
    Sleep,
    Wake,
    Rule,
}

/// A word: a decimal number below 2^64, a keyword, or any other.
#[derive(Clone, Copy, Drop)]
pub enum Word {
    Number(u64),
    Keyword(Keyword),
    Other,
}

impl Word {
    /// The number that it is.
    pub fn amount(self) -> Option<u64>
        ensures { result ≡ amounts self }
    {
        match self {
            Word::Number(n) => Some(n),
            _ => None,
        }
    }
}

/// The words of a line, without its comment.
pub fn words_of(heap: Global, line: &[u8]) -> Result<Vec<Word>, AllocError>
    ensures { IfOk result (λ v. v.items ≡ line_words line.now) }
{
    split(heap, &line[..piece_len(line, Stop::Comment)])
}

// The words between blanks.
fn split(heap: Global, line: &[u8]) -> Result<Vec<Word>, AllocError>
    ensures { IfOk result (λ v. v.items ≡ spaced line.now) }
{
    Pieces::new(line, Stop::Blank)
        .filter(|piece| !piece.is_empty())
        .map(|piece| word_of(piece))
        .collect(heap)
}

fn word_of(bytes: &[u8]) -> Word
    ensures { result ≡ worded bytes.now }
{
    if let Some(n) = number(bytes) {
        return Word::Number(n);
    }
    named(bytes).map_or(Word::Other, Word::Keyword)
}

// The number that a word of digits writes, if it is below 2^64.
fn number(word: &[u8]) -> Option<u64>
    ensures { result ≡ read_number word.now }
{
    if word.is_empty() {
        return None;
    }
    let mut n = 0;
    for b in word {
        n = onward(n, *b)?;
    }
    Some(n)
}

// A number with one digit more, if that is a digit and the number stays below 2^64.
fn onward(n: u64, b: u8) -> Option<u64>
    ensures { result ≡ read_digits n (b ∷ []) }
{
    if !b.is_ascii_digit() {
        return None;
    }
    n.checked_mul(10)?.checked_add(u64::from(b - b'0'))
}

// The keyword that a word spells.
fn named(word: &[u8]) -> Option<Keyword>
    ensures { result ≡ naming word.now }
{
    let keyword = match word {
        b"read" => Keyword::Read,
        b"up" => Keyword::Up,
        b"frame" => Keyword::Frame,
        b"hit" => Keyword::Hit,
        b"tick" => Keyword::Tick,
        b"put" => Keyword::Put,
        b"later" => Keyword::Later,
        b"forget" => Keyword::Forget,
        b"sleep" => Keyword::Sleep,
        b"wake" => Keyword::Wake,
        b"rule" => Keyword::Rule,
        _ => return None,
    };
    Some(keyword)
}
