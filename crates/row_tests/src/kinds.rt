// The kinds of a board's rows as types: each table's test is compiled for its kind alone.
ghost use Rattle.std.specs.Prelude.{true, false};
ghost use Rattle.board.specs.Layout.{machine_width, committee_width, boundary_width, rotation_width, reshape_width};
ghost use Rattle.word_tests.specs.Holding.{Unset};
ghost use Rattle.row_tests.specs.Rows.{machine_ok, committee_ok, boundary_ok, rotation_ok, reshape_ok};

use crate::{boundary_ok, committee_ok, machine_ok, reshape_ok, rotation_ok};
use board::layout::{
    BOUNDARY_WIDTH, COMMITTEE_WIDTH, MACHINE_WIDTH, RESHAPE_WIDTH, ROTATION_WIDTH,
};
use word_tests::{Marks, Row};

#[derive(Drop)]
pub struct MachineRows;

impl Row for MachineRows {
    ghost passes = { λ _. machine_ok };

    ghost WIDTH = { machine_width };

    ghost PAIRED = { false };

    const WIDTH: usize = MACHINE_WIDTH;

    const PAIRED: bool = false;

    fn passes(&mut self, row: &[u64]) -> bool {
        machine_ok(row)
    }
}

// Committees share their marks.
#[derive(Drop)]
pub struct CommitteeRows {
    marks: Marks,
}

impl CommitteeRows {
    pub fn new() -> CommitteeRows
        ensures { Unset result.marks }
    {
        CommitteeRows {
            marks: Marks::new(),
        }
    }
}

impl Row for CommitteeRows {
    ghost passes = { λ _. committee_ok };

    ghost WIDTH = { committee_width };

    ghost PAIRED = { false };

    const WIDTH: usize = COMMITTEE_WIDTH;

    const PAIRED: bool = false;

    fn passes(&mut self, row: &[u64]) -> bool {
        committee_ok(&mut self.marks, row)
    }
}

#[derive(Drop)]
pub struct BoundaryRows;

impl Row for BoundaryRows {
    ghost passes = { λ _. boundary_ok };

    ghost WIDTH = { boundary_width };

    ghost PAIRED = { false };

    const WIDTH: usize = BOUNDARY_WIDTH;

    const PAIRED: bool = false;

    fn passes(&mut self, row: &[u64]) -> bool {
        boundary_ok(row)
    }
}

#[derive(Drop)]
pub struct RotationRows;

impl Row for RotationRows {
    ghost passes = { λ _. rotation_ok };

    ghost WIDTH = { rotation_width };

    ghost PAIRED = { true };

    const WIDTH: usize = ROTATION_WIDTH;

    const PAIRED: bool = true;

    fn passes(&mut self, row: &[u64]) -> bool {
        rotation_ok(row)
    }
}

#[derive(Drop)]
pub struct ReshapeRows;

impl Row for ReshapeRows {
    ghost passes = { λ _. reshape_ok };

    ghost WIDTH = { reshape_width };

    ghost PAIRED = { false };

    const WIDTH: usize = RESHAPE_WIDTH;

    const PAIRED: bool = false;

    fn passes(&mut self, row: &[u64]) -> bool {
        reshape_ok(row)
    }
}
