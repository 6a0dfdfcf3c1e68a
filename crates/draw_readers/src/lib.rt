// A reader over lent draws as one value: it holds the lent list and how far it is read.
#![tactic(auto)]

ghost use Rattle.std.specs.Prelude.{◌≡◌};
ghost use Rattle.draw_readers.specs.Reads.{draw_at, drawn_by, read_by};

use sampling::{DrawError, Reader};

#[derive(Clone, Copy)]
pub struct DrawReader<'a> {
    pub draws: &'a [u64],
    pub at: usize,
}

// The work: the draw at a position of a list, at most `most`, and how far the list is read then; a refused draw reads nothing.
pub fn draw_at(draws: &[u64], at: usize, most: u64) -> Result<(u64, usize), DrawError>
    ensures { result ≡ draw_at draws.now at most }
{
    let from = Reader { at };
    let (index, left) = from.draw_index(draws, most)?;
    Ok((index, left.at))
}

impl<'a> DrawReader<'a> {
    pub fn over(draws: &'a [u64]) -> DrawReader<'a>
        ensures { result ≡ record { draws = draws.entry; at = 0 } }
    {
        DrawReader { draws, at: 0 }
    }

    // The next draw, at most `most`, with the reader moved on; or which refusal, with the reader as it was.
    pub fn next(&mut self, most: u64) -> Result<u64, DrawError>
        ensures drawn { result ≡ drawn_by self.old most }
        ensures read { self.new ≡ read_by self.old most }
    {
        let (index, at) = draw_at(self.draws, self.at, most)?;
        self.at = at;
        Ok(index)
    }

    // How many draws were used.
    pub fn used(self) -> usize
        ensures { result ≡ self.entry.at }
    {
        self.at
    }
}

// The first draw of a list, by a reader, and how far the list is read then.
pub fn first_draw(draws: &[u64], most: u64) -> Result<(u64, usize), DrawError>
    ensures { result ≡ draw_at draws.now 0 most }
{
    let mut reader = DrawReader::over(draws);
    let index = reader.next(most)?;
    Ok((index, reader.used()))
}
