// The nodes of a plan file: one node judged by the rules for its part, and the part reader and the line reader, which call each other.
// rule.rt: the rule of each letter. A stranger's file chooses how deep they go: a level hands on plain numbers, since a struct would be
// copied for each (64 bytes of stack a level).
#![tactic(auto)]

ghost use Rattle.std.specs.Prelude.{◌≡◌, ◌+◌, ◌*◌, ◌^◌, ◌<◌};
ghost use Rattle.cutting.specs.Piece.{piece_at, Numbered};
ghost use Rattle.fields.specs.Format.{node_length};
ghost use Rattle.nodes.specs.Reads.{frame};
ghost use Rattle.nodes.specs.Inner.{node_at, piece_tally, both_at, tally_both, no_leaves, read_of, behind_leaf, pieces_in, part_in, ReadsTo, RoomFor, MayRead, MayReadLine};

use board::Board;
use board::line::{crossed, part_height, part_width, rest};
use fields::Field;
use fields::format::NODE_LENGTH;
use rule::by_letter;
use std::ops::AddAssign;

mod rule;

// A node that obeys the rules for its part: a line (tall: a horizontal one) at its number, a piece's number, scrap.
#[derive(Clone, Copy, Debug, PartialEq, Eq)]
pub enum Node {
    Line(bool, u16),
    Piece(u16),
    Scrap,
}

// What leaves add up to: their value, the area of the pieces and that of the scrap.
#[derive(Clone, Copy, Debug, Default, PartialEq, Eq)]
pub struct Tally {
    pub value: u32,
    pub pieces: u32,
    pub scrap: u32,
}

// How far a file was read: the place of the node that comes next, and the leaves before it.
#[derive(Clone, Copy, Debug, PartialEq, Eq)]
pub struct Reading {
    pub at: usize,
    pub leaves: Tally,
}

// The bytes that end with a plan file's nodes, and the board with the pieces of its job.
#[derive(Clone, Copy)]
pub struct Nodes<'a> {
    pub board: &'a Board,
    pub bytes: &'a [u8],
}

// A function of its own, since it says once, for both kinds of leaf, that the product fits.
fn area(width: usize, height: usize) -> u32
    requires { width * height < 2 ^ 32 }
    ensures { result ≡ width * height }
{
    (width * height) as u32
}

impl AddAssign for Tally {
    ghost can_add_assign = { RoomFor };

    ghost add_assign_gives = { λ before leaf after. after ≡ tally_both before leaf };

    fn add_assign(&mut self, leaf: Tally) {
        self.value += leaf.value;
        self.pieces += leaf.pieces;
        self.scrap += leaf.scrap;
    }
}

impl Reading {
    // Goes on behind a leaf.
    fn add_leaf(&mut self, leaf: Tally)
        requires place { self.old.at + node_length < 2 ^ 64 }
        requires room { RoomFor self.old.leaves leaf }
        ensures { self.new ≡ behind_leaf self.old leaf }
    {
        self.at += NODE_LENGTH;
        self.leaves += leaf;
    }
}

impl Nodes<'_> {
    // The node that a part of this width and height starts with; or none, where a rule is broken.
    pub fn node_at(&self, at: usize, width: usize, height: usize) -> Option<Node>
        ensures { result ≡ node_at (pieces_in self.now) self.now.bytes.now (frame at width height) }
    {
        if self.bytes.len() < NODE_LENGTH {
            return None;
        }
        if self.bytes.len() - NODE_LENGTH < at {
            return None;
        }
        by_letter(
            self.board,
            self.bytes[at],
            u16::read(self.bytes, at + 1),
            width,
            height,
        )
    }

    // What a piece's leaf adds, by the piece's number.
    fn piece_leaf(&self, number: u16, width: usize, height: usize) -> Tally
        requires numbered { Numbered (pieces_in self.now) number width height (piece_at (pieces_in self.now) number).value }
        requires room { width * height < 2 ^ 32 }
        ensures { result ≡ piece_tally (piece_at (pieces_in self.now) number).value width height }
    {
        Tally {
            value: u32::from(self.board.piece(usize::from(number) - 1).value),
            pieces: area(width, height),
            scrap: 0,
        }
    }

    // Reads a part from its first node on: where its nodes end, and its leaves; or none, where a rule is broken.
    pub fn read(&self, at: usize, width: usize, height: usize) -> Option<Reading>
        requires { MayRead (pieces_in self.now) width height no_leaves }
        ensures { result ≡ read_of (part_in self.now at width height) }
    {
        let mut reading = Reading {
            at,
            leaves: Tally::default(),
        };
        self.read_part(&mut reading, width, height)?;
        Some(reading)
    }

    // Reads on over a part: a leaf by itself, a line with its two parts; or none, where a rule is broken.
    #[cycle(read_line_read_part)]
    pub fn read_part(&self, reading: &mut Reading, width: usize, height: usize) -> Option<()>
        requires { MayRead (pieces_in self.now) width height reading.old.leaves }
        ensures { ReadsTo reading.old.leaves reading.new result (part_in self.now reading.old.at width height) }
    {
        let node = self.node_at(reading.at, width, height)?;
        match node {
            Node::Line(tall, c) => {
                reading.at += NODE_LENGTH;
                self.read_line(reading, width, height, tall, c)
            }
            Node::Piece(number) => {
                reading.add_leaf(self.piece_leaf(number, width, height));
                Some(())
            }
            Node::Scrap => {
                reading.add_leaf(Tally {
                    value: 0,
                    pieces: 0,
                    scrap: area(width, height),
                });
                Some(())
            }
        }
    }

    // Reads the two parts of a line by the same rules, the second from where the first ends.
    #[cycle(read_line_read_part)]
    fn read_line(
        &self,
        reading: &mut Reading,
        width: usize,
        height: usize,
        tall: bool,
        c: u16,
    ) -> Option<()>
        requires { MayReadLine (pieces_in self.now) width height tall c reading.old.leaves }
        ensures { ReadsTo reading.old.leaves reading.new result (both_at (pieces_in self.now) self.now.bytes.now reading.old.at width height tall c) }
    {
        let near = usize::from(c);
        self.read_part(
            reading,
            part_width(tall, width, near),
            part_height(tall, height, near),
        )?;
        let far = rest(crossed(tall, width, height), near);
        self.read_part(
            reading,
            part_width(tall, width, far),
            part_height(tall, height, far),
        )
    }
}
