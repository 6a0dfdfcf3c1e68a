// Counts for each kind of what the file has.
use crate::kinds::{KINDS, Kind};
use std::io;

#[derive(Clone, Copy)]
struct Counts {
    as_recorded: u64,
    different: u64,
    not_made: u64,
}

#[derive(Clone, Copy)]
pub(crate) struct Tally {
    counts: [Counts; 18],
}

impl Tally {
    pub(crate) fn new() -> Self {
        let none = Counts {
            as_recorded: 0,
            different: 0,
            not_made: 0,
        };
        Tally { counts: [none; 18] }
    }

    fn at(&mut self, kind: Kind) -> &mut Counts {
        &mut self.counts[kind as usize]
    }

    // A count that is full stays full.
    pub(crate) fn add(&mut self, kind: Kind, same: bool) {
        let counts = self.at(kind);
        if same {
            counts.as_recorded = counts.as_recorded.saturating_add(1);
        } else {
            counts.different = counts.different.saturating_add(1);
        }
    }

    pub(crate) fn pass_over(&mut self, kind: Kind) {
        let counts = self.at(kind);
        counts.not_made = counts.not_made.saturating_add(1);
    }

    pub(crate) fn print(&self, rt: &impl Print) -> io::Result<()> {
        for (kind, counts) in KINDS.iter().zip(&self.counts) {
            let Counts {
                as_recorded,
                different,
                not_made,
            } = counts;
            println!(rt;
                "{kind}: {as_recorded} as recorded, {different} different, {not_made} not made"
            )?;
        }
        Ok(())
    }
}
