// What a board's tables tell, as rows of words and plain numbers.
use crate::files::WORDS;
use sections::Section;
use templates::number_at;
use types::ValidatorId;

// How many rows a table has.
pub(crate) fn count(board: &[u64; WORDS], which: Section, j: usize) -> usize {
    number_at(which.table(board, j), 0) as usize
}

pub(crate) fn row(board: &[u64; WORDS], which: Section, j: usize, i: usize) -> &[u64] {
    sections::row(which.table(board, j), which.row_width(), i)
}

pub(crate) fn ids(board: &[u64; WORDS], which: Section, j: usize) -> &[u64] {
    sections::ids(which.table(board, j))
}

pub(crate) fn has_record(board: &[u64; WORDS], id: ValidatorId) -> bool {
    rows::find_machine(board, id).is_some()
}
