// The plan file's own numbers: letters, lengths and places. A letter is a byte of the file; what it says is a `nodes::Node`.
pub const VERTICAL: u8 = b'V';

pub const HORIZONTAL: u8 = b'H';

pub const PIECE: u8 = b'P';

pub const SCRAP: u8 = b'S';

// A letter and a number of two bytes.
pub const NODE_LENGTH: usize = 3;

// The job block: a head of three numbers, then three for each piece, two bytes each; where the second and the third stand.
pub const HEAD_BYTES: usize = 6;

pub const PIECE_BYTES: usize = 6;

pub const SECOND_NUMBER: usize = 2;

pub const THIRD_NUMBER: usize = 4;

// The lengths that a file may have.
pub const FILE_LEAST: usize = 25;

pub const FILE_MOST: usize = 1_048_576;

// The trailer, and where its fields stand in it: D1, D2, the value, the sum, and how long the sum is.
pub const TRAILER_LENGTH: usize = 16;

pub const BLOCK_FIELD: usize = 0;

pub const NODES_FIELD: usize = 4;

pub const VALUE_FIELD: usize = 8;

pub const SUM_FIELD: usize = 12;

pub const SUM_LENGTH: usize = 4;

// A head and a node.
pub const DISTANCE_LEAST: usize = HEAD_BYTES + NODE_LENGTH;
