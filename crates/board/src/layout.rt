// Where everything stands in the words: the definitions' names, written once here for the code.
pub const SETTINGS_ROOM: usize = 15;

pub const EPOCH: usize = 1;

pub const SIZE: usize = 2;

pub const DRAIN: usize = 3;

pub const WAIT: usize = 4;

pub const INTERVAL: usize = 5;

pub const MOST: usize = 6;

pub const SETTINGS_END: usize = 1 + MOST;

pub const MOST_MACHINES: usize = 256;

pub const MACHINE_WIDTH: usize = 5;

pub const MACHINES_AT: usize = 1 + SETTINGS_ROOM;

pub const MOST_COMMITTEES: usize = 24;

pub const MOST_MEMBERS: usize = 96;

pub const MEMBERS_AT: usize = 1;

pub const MEMBERS_SIZE: usize = 1 + MOST_MEMBERS;

pub const COMMITTEE_WIDTH: usize = MEMBERS_AT + MEMBERS_SIZE;

pub const COMMITTEES_AT: usize = MACHINES_AT + 1 + MOST_MACHINES * MACHINE_WIDTH;

pub const MOST_BOUNDS: usize = 48;

pub const BOUNDARY_WIDTH: usize = 8;

pub const BOUNDS_AT: usize = COMMITTEES_AT + 1 + MOST_COMMITTEES * COMMITTEE_WIDTH;

pub const MOST_ROTATIONS: usize = 48;

pub const ROTATION_WIDTH: usize = 4;

pub const ROTATIONS_AT: usize = BOUNDS_AT + 1 + MOST_BOUNDS * BOUNDARY_WIDTH;

pub const RESHAPES_AT: usize = ROTATIONS_AT + 1 + MOST_ROTATIONS * ROTATION_WIDTH;

pub const MOST_RESHAPES: usize = 8;

pub const KIND: usize = 1;

pub const ADMITTED: usize = 2;

pub const DRAIN_FLAG: usize = 3;

pub const DRAIN_BY: usize = 4;

pub const SCHEDULED_FLAG: usize = 5;

pub const TERMINAL: usize = 6;

pub const QUIET_LEFT: usize = 7;

pub const QUIET_RIGHT: usize = 8;

pub const MOST_SEATS: usize = 32;

pub const SEAT_WIDTH: usize = 3;

pub const SEATS_AT: usize = 9;

pub const SEATS_SIZE: usize = 1 + MOST_SEATS * SEAT_WIDTH;

pub const MOST_HALF: usize = 48;

pub const HALF_SIZE: usize = 1 + MOST_HALF;

pub const LEFT_AT: usize = SEATS_AT + SEATS_SIZE;

pub const RIGHT_AT: usize = LEFT_AT + HALF_SIZE;

pub const RESHAPE_WIDTH: usize = RIGHT_AT + HALF_SIZE;

pub const BOARD_SIZE: usize = RESHAPES_AT + 1 + MOST_RESHAPES * RESHAPE_WIDTH;

// ---- The ranges of rules/specs/Board.antt

pub const LAST_EPOCH: u64 = 4294967295;

pub const MOST_EPOCHS: u64 = 1000000;

pub const LAST_SHARD: u64 = 65535;

pub const LAST_TARGET: u64 = 32767;
