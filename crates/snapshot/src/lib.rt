// A board's snapshot: its words without the room past each count, as bytes.
#![tactic(auto)]

ghost use Rattle.snapshot.specs.Written.{Written, WrittenAs};

use types::Answer;

// The snapshot's length. The size is known before the first byte is written.
pub fn written(board: &[u64], snapshot: &mut [u8]) -> Result<usize, Answer>
    ensures { WrittenAs board.now snapshot.old snapshot.new result }
{
    if !wellformed::well_formed(board) {
        return Err(Answer::NotWellFormed);
    }
    let size = 8 * packing::packed_size(board);
    if snapshot.len() < size {
        return Err(Answer::NoRoom);
    }
    packing::put_board(board, snapshot);
    Ok(size)
}

// The same by an answer, with the length beside. Kept: the exports answer so.
pub fn write_snapshot(board: &[u64], snapshot: &mut [u8], long: &mut u64) -> Answer
    ensures { Written board.now snapshot.old long.old snapshot.new long.new result }
{
    match written(board, snapshot) {
        Ok(size) => {
            *long = size as u64;
            Answer::Done
        }
        Err(answer) => answer,
    }
}
