// The listing of a tree: one line for each node in the order of the plan file, read off the nodes that were written.
// line.rt: one line; part.rt: the lines of a part.
#![tactic(auto)]

pub mod line;
pub mod part;

// What a node is.
#[derive(Clone, Copy, Debug, PartialEq, Eq)]
pub enum Kind {
    Vertical,
    Horizontal,
    Piece,
    Scrap,
}

// A part to be listed: where its nodes start, its level and its sides.
#[derive(Clone, Copy, Debug, PartialEq, Eq)]
pub struct Section {
    pub at: usize,
    pub level: usize,
    pub width: usize,
    pub height: usize,
}
