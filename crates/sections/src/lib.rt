// The tables of a board, as parts of its words: a count, and rows of one width.
#![tactic(auto)]

ghost use Rattle.std.specs.Prelude.{◌≡◌, ◌+◌, ◌-◌, ◌≤◌, length, get_or, IfSome, MatchResult, Some, None};
ghost use Rattle.board.specs.Layout.{board_size, reshape_width};
ghost use Rattle.sections.specs.Tables.{width_of, span, members_span, reshape_span, span_of, table_in, section_of, width_at, table_at, row_in, ids_in, count_in};

use board::layout::{
    BOARD_SIZE, BOUNDARY_WIDTH, BOUNDS_AT, COMMITTEE_WIDTH, COMMITTEES_AT, HALF_SIZE, LEFT_AT,
    MACHINE_WIDTH, MACHINES_AT, MEMBERS_AT, MEMBERS_SIZE, MOST_COMMITTEES, MOST_RESHAPES,
    RESHAPE_WIDTH, RESHAPES_AT, RIGHT_AT, ROTATION_WIDTH, ROTATIONS_AT, SEAT_WIDTH, SEATS_AT,
    SEATS_SIZE,
};
use templates::number_at;

#[derive(Clone, Copy, PartialEq, Eq)]
pub enum Section {
    Machines,
    Committees,
    Boundaries,
    Rotations,
    Reshapes,
    // Of a committee.
    Members,
    // Of a reshape.
    Seats,
    Left,
    Right,
    // A count, and the six.
    Settings,
}

// A number that names no table.
#[derive(Clone, Copy, PartialEq, Eq)]
pub struct NoSuchSection(pub u64);

impl TryFrom<u64> for Section {
    type Error = NoSuchSection;

    ghost try_from_gives = { λ number named. MatchResult named (λ section. section_of number ≡ Some section) (λ _. section_of number ≡ None) };

    #[tactic(auto, unfolding(crate::specs::Tables::section_of))]
    fn try_from(number: u64) -> Result<Section, NoSuchSection> {
        match number {
            0 => Ok(Section::Machines),
            1 => Ok(Section::Committees),
            2 => Ok(Section::Boundaries),
            3 => Ok(Section::Rotations),
            4 => Ok(Section::Reshapes),
            5 => Ok(Section::Members),
            6 => Ok(Section::Seats),
            7 => Ok(Section::Left),
            8 => Ok(Section::Right),
            9 => Ok(Section::Settings),
            _ => Err(NoSuchSection(number)),
        }
    }
}

// So many words from a place on.
#[derive(Clone, Copy)]
pub struct Span {
    pub at: usize,
    pub size: usize,
}

#[tactic(auto, unfolding(crate::specs::Tables::members_span))]
fn in_committee(j: usize) -> Option<Span>
    ensures place { result ≡ members_span j }
    ensures within { IfSome result (λ s. s.at + s.size ≤ board_size) }
{
    if MOST_COMMITTEES <= j {
        return None;
    }
    Some(Span {
        at: COMMITTEES_AT + 1 + j * COMMITTEE_WIDTH + MEMBERS_AT,
        size: MEMBERS_SIZE,
    })
}

#[tactic(auto, unfolding(crate::specs::Tables::reshape_span))]
fn in_reshape(j: usize, at: usize, size: usize) -> Option<Span>
    requires { at + size ≤ reshape_width }
    ensures place { result ≡ reshape_span j at size }
    ensures within { IfSome result (λ s. s.at + s.size ≤ board_size) }
{
    if MOST_RESHAPES <= j {
        return None;
    }
    Some(Span {
        at: RESHAPES_AT + 1 + j * RESHAPE_WIDTH + at,
        size,
    })
}

fn between(at: usize, end: usize) -> Span
    requires { at ≤ end }
    ensures { result ≡ span at (end - at) }
{
    Span { at, size: end - at }
}

impl Section {
    #[tactic(auto, unfolding(crate::specs::Tables::width_of))]
    pub fn row_width(self) -> usize
        ensures { result ≡ width_of self }
    {
        match self {
            Section::Machines => MACHINE_WIDTH,
            Section::Committees => COMMITTEE_WIDTH,
            Section::Boundaries => BOUNDARY_WIDTH,
            Section::Rotations => ROTATION_WIDTH,
            Section::Reshapes => RESHAPE_WIDTH,
            Section::Seats => SEAT_WIDTH,
            Section::Members | Section::Left | Section::Right | Section::Settings => 1,
        }
    }

    // Where the table stands; none past the last row that has such a table.
    #[tactic(auto, unfolding(crate::specs::Tables::span_of))]
    fn span(self, j: usize) -> Option<Span>
        ensures place { result ≡ span_of self j }
        ensures within { IfSome result (λ s. s.at + s.size ≤ board_size) }
    {
        match self {
            Section::Machines => Some(between(MACHINES_AT, COMMITTEES_AT)),
            Section::Committees => Some(between(COMMITTEES_AT, BOUNDS_AT)),
            Section::Boundaries => Some(between(BOUNDS_AT, ROTATIONS_AT)),
            Section::Rotations => Some(between(ROTATIONS_AT, RESHAPES_AT)),
            Section::Reshapes => Some(between(RESHAPES_AT, BOARD_SIZE)),
            Section::Members => in_committee(j),
            Section::Seats => in_reshape(j, SEATS_AT, SEATS_SIZE),
            Section::Left => in_reshape(j, LEFT_AT, HALF_SIZE),
            Section::Right => in_reshape(j, RIGHT_AT, HALF_SIZE),
            Section::Settings => Some(between(0, MACHINES_AT)),
        }
    }

    // Inside row j where the table stands in one.
    pub fn table(self, board: &[u64], j: usize) -> &[u64]
        requires { length board.now ≡ board_size }
        ensures { result.now ≡ table_in self j board.now }
    {
        match self.span(j) {
            Some(s) => &board[s.at..s.at + s.size],
            None => &[],
        }
    }
}

// ---- by a table's number, of which any is allowed

#[tactic(auto, unfolding(crate::specs::Tables::width_with))]
pub fn row_width(which: u64) -> usize
    ensures { result ≡ width_at which }
{
    match Section::try_from(which) {
        Ok(section) => section.row_width(),
        Err(_) => 1,
    }
}

#[tactic(auto, unfolding(crate::specs::Tables::table_with))]
pub fn table(board: &[u64], which: u64, j: usize) -> &[u64]
    requires { length board.now ≡ board_size }
    ensures { result.now ≡ table_at which j board.now }
{
    match Section::try_from(which) {
        Ok(section) => section.table(board, j),
        Err(_) => &[],
    }
}

// ---- rows

// Row i of a table of width w; nothing past its room.
pub fn row(t: &[u64], w: usize, i: usize) -> &[u64]
    ensures { result.now ≡ row_in w i t.now }
{
    if t.is_empty() {
        return &[];
    }
    if w == 0 {
        return &[];
    }
    if (t.len() - 1) / w <= i {
        return &[];
    }
    let s = 1 + i * w;
    let e = s + w;
    &t[s..e]
}

// The ids of a table of ids; none where its count is past its room.
pub fn ids(t: &[u64]) -> &[u64]
    ensures { result.now ≡ ids_in t.now }
{
    let n = number_at(t, 0) as usize;
    if t.len() <= n {
        return &[];
    }
    let e = n + 1;
    &t[1..e]
}

// How many rows have x as their word k.
pub fn count_with(t: &[u64], w: usize, k: usize, x: u64) -> usize
    ensures { result ≡ count_in w k x t.now (get_or t.now 0 0) }
{
    let all = number_at(t, 0) as usize;
    let mut n: usize = 0;
    for i in 0..all {
        if number_at(row(t, w, i), k) == x {
            n += 1;
        }
    }
    n
}
