// The exports for C: each is the function of its name in the library, by C's call. Each is written out, since C links it by its own name.
#![tactic(auto)]

ghost use Rattle.std.specs.Prelude.{◌≡◌, [], ◌∷◌};
ghost use Rattle.types.specs.Answers.{number_of};
ghost use Rattle.board.specs.Layout.{board_size};
ghost use Rattle.board.specs.Permitted.{WellHeld};
ghost use Rattle.rules.specs.Places.{tick, leave, rotate, resolve, time_out};
ghost use Rattle.rules.specs.Reshapes.{admit_split, admit_merge, mark_seat_ready, mark_quiet, draw_cohort, lapse};
ghost use Rattle.rules.specs.Schedule.{schedule_splits, schedule_merges};
ghost use Rattle.rules.specs.Cut.{cut_splits, cut_merges};
ghost use Rattle.applying.specs.Asked.{call_of};
ghost use Rattle.applying.specs.Applied.{Applied};
ghost use Rattle.seats.specs.Tells.{SeatedWell};
ghost use Rattle.roster.specs.Exported.{ExportedStep, ExportedCheck, ExportedWrite, ExportedRead};

// How many words a board is: lend exactly as many.
#[unsafe(no_mangle)]
pub extern "C" fn roster_words() -> u64
    ensures { result ≡ board_size }
{
    roster::roster_words()
}

// The most bytes that a snapshot has.
#[unsafe(no_mangle)]
pub extern "C" fn roster_snapshot_most() -> u64
    ensures { result ≡ 46816 }
{
    roster::roster_snapshot_most()
}

// 1 if the words hold a well-formed board, else 0.
#[unsafe(no_mangle)]
pub extern "C" fn roster_well_formed(board: &[u64]) -> u64
    ensures { ExportedCheck WellHeld board.now result }
{
    roster::roster_well_formed(board)
}

// 1 if the words hold a board that passes the seat check, else 0.
#[unsafe(no_mangle)]
pub extern "C" fn roster_seat_check(board: &[u64]) -> u64
    ensures { ExportedCheck SeatedWell board.now result }
{
    roster::roster_seat_check(board)
}

// The board whose snapshot the bytes are, into lent words; words past the board stay as they are.
#[unsafe(no_mangle)]
pub extern "C" fn roster_read(snapshot: &[u8], board: &mut [u64]) -> u64
    ensures { ExportedRead snapshot.now board.old board.new result }
{
    roster::roster_read(snapshot, board)
}

// The board's snapshot into lent bytes, and how many it has.
#[unsafe(no_mangle)]
pub extern "C" fn roster_write(board: &[u64], snapshot: &mut [u8], length: &mut u64) -> u64
    ensures { ExportedWrite board.now snapshot.old length.old snapshot.new length.new result }
{
    roster::roster_write(board, snapshot, length)
}

#[unsafe(no_mangle)]
pub extern "C" fn roster_tick(board: &mut [u64], results: &mut [u64; 2]) -> u64
    ensures { ExportedStep tick board.old board.new result results.new }
{
    roster::roster_tick(board, results)
}

#[unsafe(no_mangle)]
pub extern "C" fn roster_time_out(board: &mut [u64], results: &mut [u64; 2]) -> u64
    ensures { ExportedStep time_out board.old board.new result results.new }
{
    roster::roster_time_out(board, results)
}

#[unsafe(no_mangle)]
pub extern "C" fn roster_mark_seat_ready(
    board: &mut [u64],
    target: u64,
    machine: u64,
    results: &mut [u64; 2],
) -> u64
    ensures { ExportedStep (mark_seat_ready target machine) board.old board.new result results.new }
{
    roster::roster_mark_seat_ready(board, target, machine, results)
}

#[unsafe(no_mangle)]
pub extern "C" fn roster_mark_quiet(
    board: &mut [u64],
    target: u64,
    side: u64,
    results: &mut [u64; 2],
) -> u64
    ensures { ExportedStep (mark_quiet target side) board.old board.new result results.new }
{
    roster::roster_mark_quiet(board, target, side, results)
}

#[unsafe(no_mangle)]
pub extern "C" fn roster_leave(
    board: &mut [u64],
    machine: u64,
    draws: &[u64],
    results: &mut [u64; 2],
) -> u64
    ensures { ExportedStep (leave machine draws.now) board.old board.new result results.new }
{
    roster::roster_leave(board, machine, draws, results)
}

#[unsafe(no_mangle)]
pub extern "C" fn roster_rotate(
    board: &mut [u64],
    shard: u64,
    machine: u64,
    draws: &[u64],
    results: &mut [u64; 2],
) -> u64
    ensures { ExportedStep (rotate shard machine draws.now) board.old board.new result results.new }
{
    roster::roster_rotate(board, shard, machine, draws, results)
}

#[unsafe(no_mangle)]
pub extern "C" fn roster_resolve(board: &mut [u64], results: &mut [u64; 2]) -> u64
    ensures { ExportedStep resolve board.old board.new result results.new }
{
    roster::roster_resolve(board, results)
}

#[unsafe(no_mangle)]
pub extern "C" fn roster_admit_split(board: &mut [u64], target: u64, results: &mut [u64; 2]) -> u64
    ensures { ExportedStep (admit_split target) board.old board.new result results.new }
{
    roster::roster_admit_split(board, target, results)
}

#[unsafe(no_mangle)]
pub extern "C" fn roster_admit_merge(
    board: &mut [u64],
    target: u64,
    draws: &[u64],
    results: &mut [u64; 2],
) -> u64
    ensures { ExportedStep (admit_merge target draws.now) board.old board.new result results.new }
{
    roster::roster_admit_merge(board, target, draws, results)
}

#[unsafe(no_mangle)]
pub extern "C" fn roster_draw_cohort(
    board: &mut [u64],
    target: u64,
    draws: &[u64],
    results: &mut [u64; 2],
) -> u64
    ensures { ExportedStep (draw_cohort target draws.now) board.old board.new result results.new }
{
    roster::roster_draw_cohort(board, target, draws, results)
}

#[unsafe(no_mangle)]
pub extern "C" fn roster_lapse(board: &mut [u64], target: u64, results: &mut [u64; 2]) -> u64
    ensures { ExportedStep (lapse target) board.old board.new result results.new }
{
    roster::roster_lapse(board, target, results)
}

#[unsafe(no_mangle)]
pub extern "C" fn roster_schedule_splits(
    board: &mut [u64],
    draws: &[u64],
    results: &mut [u64; 2],
) -> u64
    ensures { ExportedStep (schedule_splits draws.now) board.old board.new result results.new }
{
    roster::roster_schedule_splits(board, draws, results)
}

#[unsafe(no_mangle)]
pub extern "C" fn roster_schedule_merges(board: &mut [u64], results: &mut [u64; 2]) -> u64
    ensures { ExportedStep schedule_merges board.old board.new result results.new }
{
    roster::roster_schedule_merges(board, results)
}

#[unsafe(no_mangle)]
pub extern "C" fn roster_cut_splits(board: &mut [u64], results: &mut [u64; 2]) -> u64
    ensures { ExportedStep cut_splits board.old board.new result results.new }
{
    roster::roster_cut_splits(board, results)
}

#[unsafe(no_mangle)]
pub extern "C" fn roster_cut_merges(board: &mut [u64], results: &mut [u64; 2]) -> u64
    ensures { ExportedStep cut_merges board.old board.new result results.new }
{
    roster::roster_cut_merges(board, results)
}

// A read, the step of that number on the board read, and a write of what it left: as the three one after another, but that
// the board's rules are asked once. The results are those of the step and the length of the snapshot.
#[unsafe(no_mangle)]
pub extern "C" fn roster_apply(
    snapshot: &[u8],
    step: u64,
    first: u64,
    second: u64,
    draws: &[u64],
    board: &mut [u64],
    after: &mut [u8],
    results: &mut [u64; 3],
) -> u64
    ensures { Applied (call_of step first second draws.now) snapshot.now board.old after.old results.old
        board.new after.new results.new result }
{
    roster::roster_apply(snapshot, step, first, second, draws, board, after, results)
}
