// The tree of a part, step by step: first the length of its nodes, then the nodes. What a level carries is small: 479 may lie one below the other.
// So a part goes down as plain numbers: tried as a struct of the three, which is copied for each call, a level took 16 bytes of stack more.
ghost use Rattle.std.specs.Prelude.{◌≡◌, ◌+◌, ◌≤◌, length};
ghost use Rattle.fields.specs.Format.{node_length};
ghost use Rattle.nodes.specs.Encoding.{letter_of, node, encode};
ghost use Rattle.tracer.specs.Inner.{part_of, node_of, Traceable, traced, measured, rows_in, cell_in};
ghost use Rattle.laws.specs.Inner.{Room, Wrote};

use crate::next::next_step;
use crate::table::Table;
use crate::{Step, Wanted};
use board::line::{crossed, part_height, part_width, rest};
use fields::Field;
use fields::format::{HORIZONTAL, NODE_LENGTH, PIECE, SCRAP, VERTICAL};

// The number of bytes that the nodes of a part's tree take; none where rule 6.6 strikes in it.
pub fn measure(table: &Table, width: usize, height: usize, wanted: Wanted) -> Option<usize>
    requires { Traceable table.now (part_of width height wanted) }
    ensures { result ≡ measured (rows_in table.now) (cell_in table.now) (part_of width height wanted) }
{
    let Step::Line(at, near, tall) = next_step(table, width, height, wanted)? else {
        return Some(NODE_LENGTH);
    };
    let c = usize::from(at);
    let r = rest(crossed(tall, width, height), c);
    let first = measure(
        table,
        part_width(tall, width, c),
        part_height(tall, height, c),
        near,
    )?;
    let second = measure(
        table,
        part_width(tall, width, r),
        part_height(tall, height, r),
        near.beyond(),
    )?;
    Some(NODE_LENGTH + first + second)
}

// Writes one node at a place, and answers the place after it.
fn write_node(o: &mut [u8], at: usize, letter: u8, number: u16) -> usize
    requires { at + node_length ≤ length o.old }
    ensures { Wrote o.old at (node letter number) result o.new }
{
    o[at] = letter;
    number.put(o, at + 1);
    at + NODE_LENGTH
}

// The letter of a line. A function, since From of a bool would not say of what.
fn letter_of(tall: bool) -> u8
    ensures { result ≡ letter_of tall }
{
    if tall { HORIZONTAL } else { VERTICAL }
}

// Writes the node of a step.
#[tactic(auto, unfolding(crate::specs::Inner::node_of))]
fn write_step(o: &mut [u8], at: usize, step: Step) -> usize
    requires { at + node_length ≤ length o.old }
    ensures { Wrote o.old at (node_of step) result o.new }
{
    match step {
        Step::Scrap => write_node(o, at, SCRAP, 0),
        Step::Piece(number) => write_node(o, at, PIECE, number),
        Step::Line(c, _, tall) => write_node(o, at, letter_of(tall), c),
    }
}

// The place is a number, as plan wants it for the trailer's distances; so o and at stay two.
// Writes the nodes of a part's tree at a place, and answers the place after them. Where rule 6.6 strikes nobody writes; scrap stands for it here.
pub fn write(
    table: &Table,
    width: usize,
    height: usize,
    wanted: Wanted,
    o: &mut [u8],
    at: usize,
) -> usize
    requires traceable { Traceable table.now (part_of width height wanted) }
    requires room { Room o.old at (encode (traced (rows_in table.now) (cell_in table.now) (part_of width height wanted))) }
    ensures { Wrote o.old at (encode (traced (rows_in table.now) (cell_in table.now) (part_of width height wanted))) result o.new }
{
    let next = next_step(table, width, height, wanted).unwrap_or(Step::Scrap);
    let after = write_step(o, at, next);
    let Step::Line(place, near, tall) = next else {
        return after;
    };
    let c = usize::from(place);
    let r = rest(crossed(tall, width, height), c);
    let middle = write(
        table,
        part_width(tall, width, c),
        part_height(tall, height, c),
        near,
        o,
        after,
    );
    write(
        table,
        part_width(tall, width, r),
        part_height(tall, height, r),
        near.beyond(),
        o,
        middle,
    )
}
