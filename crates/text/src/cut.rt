//! Where a line, a comment or a word ends.
ghost use Rattle.std.specs.Prelude.{◌≡◌, position, [], slice_index_or};
ghost use Rattle.std.specs.Iterator.{YieldsFirstRef, item_count};
ghost use Rattle.text.specs.Cut.{First, stops, cut, left};
ghost use Rattle.text.specs.declared.cut.Stop.TheVariants.{Line};

/// What ends at the first byte that stops it.
#[derive(Clone, Copy, Drop)]
pub enum Stop {
    /// A line ends at a newline.
    Line,
    /// What a line says ends where its comment starts.
    Comment,
    /// A word ends at a space or a tab.
    Blank,
}

impl Stop {
    // Whether this byte is the end.
    fn ends(self, b: u8) -> bool
        ensures { result ≡ stops self b }
    {
        match self {
            Stop::Line => b == b'\n',
            Stop::Comment => b == b'#',
            Stop::Blank => b == b' ' || b == b'\t',
        }
    }

    // Where the first byte is that ends it.
    fn first_in(self, text: &[u8]) -> Option<usize>
        ensures { result ≡ position (λ b. stops self b) text.now }
    {
        text.iter().position(|b| self.ends(*b))
    }
}

/// How many bytes come before the first one that stops.
pub fn piece_len(text: &[u8], stop: Stop) -> usize
    ensures { First (stops stop) text.now result }
{
    stop.first_in(text).unwrap_or(text.len())
}

/// The pieces of a text between the bytes that stop. There is always one.
#[derive(Drop)]
pub struct Pieces<'a> {
    rest: Option<&'a [u8]>,
    stop: Stop,
}

impl<'a> Pieces<'a> {
    pub fn new(text: &'a [u8], stop: Stop) -> Pieces<'a>
        ensures { left result ≡ cut (stops stop) text.now }
    {
        Pieces {
            rest: Some(text),
            stop,
        }
    }
}

impl<'a> Iterator for Pieces<'a> {
    type Item = &'a [u8];

    ghost next_gives = { YieldsFirstRef left };

    ghost remaining = { item_count left };

    fn next(&mut self) -> Option<&'a [u8]> {
        let rest = self.rest?;
        let (piece, more) = rest.split_at(piece_len(rest, self.stop));
        self.rest = more.get(1..);
        Some(piece)
    }
}

/// A line of a text, counted from 0; nothing past the last.
pub fn line_at(text: &[u8], line: usize) -> &[u8]
    ensures { result.now ≡ slice_index_or (cut (stops Line) text.now) line [] }
{
    Pieces::new(text, Stop::Line).nth(line).unwrap_or(&[])
}
