// The halves of a scheduled split: two lists of ids in its row.
ghost use Rattle.std.specs.Prelude.{◌≡◌, [], ◌∷◌, ◌++◌, ◌+◌, ◌<◌, length, get_or};
ghost use Rattle.rules.specs.Lists.{has};
ghost use Rattle.rules.specs.Board.{Board, most_reshapes, most_half, on_reshapes};
ghost use Rattle.tables.specs.Rows.{id_table};
ghost use Rattle.board.specs.Layout.{board_size};
ghost use Rattle.board.specs.Held.{Holds, no_reshape};
ghost use Rattle.board.specs.Leaves.{change_at};
ghost use Rattle.reshapes.specs.Changes.{half_of, with_half};

use super::Side;
use board::layout::{HALF_SIZE, MOST_HALF, RESHAPE_WIDTH, RESHAPES_AT};
use types::ValidatorId;

// The words of a half.
fn words(ws: &[u64], i: usize, side: Side) -> &[u64]
    requires { (length ws.now ≡ board_size) × (i < most_reshapes) }
    ensures wide { length result.now ≡ 1 + most_half }
    ensures held { (b : Board) → Holds ws.now b → i < length b.reshapes → result.now ≡ id_table most_half (half_of side (get_or b.reshapes i no_reshape).val) }
{
    let a = RESHAPES_AT + 1 + i * RESHAPE_WIDTH + side.half_at();
    let e = a + HALF_SIZE;
    &ws[a..e]
}

pub fn count(ws: &[u64], i: usize, side: Side) -> usize
    requires { (length ws.now ≡ board_size) × (i < most_reshapes) }
    ensures { (b : Board) → Holds ws.now b → i < length b.reshapes → result ≡ length (half_of side (get_or b.reshapes i no_reshape).val) }
{
    words(ws, i, side)[0] as usize
}

pub fn at(ws: &[u64], i: usize, side: Side, k: usize) -> ValidatorId
    requires { (length ws.now ≡ board_size) × (i < most_reshapes) × (k < most_half) }
    ensures { (b : Board) → Holds ws.now b → i < length b.reshapes → k < length (half_of side (get_or b.reshapes i no_reshape).val) →
        result.0 ≡ get_or (half_of side (get_or b.reshapes i no_reshape).val) k 0 }
{
    ValidatorId(words(ws, i, side)[1 + k])
}

pub fn contains(ws: &[u64], i: usize, side: Side, id: ValidatorId) -> bool
    requires { (length ws.now ≡ board_size) × (i < most_reshapes) }
    ensures { (b : Board) → Holds ws.now b → i < length b.reshapes → result ≡ has id.0 (half_of side (get_or b.reshapes i no_reshape).val) }
{
    tables::contains(words(ws, i, side), MOST_HALF, id.0)
}

pub fn push(ws: &mut [u64], i: usize, side: Side, id: ValidatorId)
    requires { (length ws.old ≡ board_size) × (i < most_reshapes) }
    ensures { (b : Board) → Holds ws.old b → i < length b.reshapes → length (half_of side (get_or b.reshapes i no_reshape).val) < most_half →
        Holds ws.new (on_reshapes (change_at no_reshape i (with_half side (λ l. l ++ (id.0 ∷ [])))) b) }
{
    let a = RESHAPES_AT + 1 + i * RESHAPE_WIDTH + side.half_at();
    let e = a + HALF_SIZE;
    tables::push(&mut ws[a..e], MOST_HALF, id.0);
}

// All ids of a half go.
pub fn clear(ws: &mut [u64], i: usize, side: Side)
    requires { (length ws.old ≡ board_size) × (i < most_reshapes) }
    ensures { (b : Board) → Holds ws.old b → i < length b.reshapes →
        Holds ws.new (on_reshapes (change_at no_reshape i (with_half side (λ l. []))) b) }
{
    let a = RESHAPES_AT + 1 + i * RESHAPE_WIDTH + side.half_at();
    let e = a + HALF_SIZE;
    tables::empty(&mut ws[a..e], 1, MOST_HALF);
}
