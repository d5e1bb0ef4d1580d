// The lines of a part, node by node from where its nodes start.
ghost use Rattle.std.specs.Prelude.{◌≡◌, ◌≤◌};
ghost use Rattle.nodes.specs.Inner.{pieces_in};
ghost use Rattle.printing.specs.Inner.{Writes};
ghost use Rattle.listing.specs.Inner.{level_most, below_of, node_text, MayList, ListsThere};

use crate::line::put_line;
use crate::{Kind, Section};
use board::line::{crossed, part_height, part_width, rest};
use fields::format::NODE_LENGTH;
use nodes::{Node, Nodes};
use printing::Text;

impl Section {
    // The part of a line that has `side` of the side that it goes through, one level below.
    fn below(self, tall: bool, side: usize, at: usize) -> Section
        requires { self.level ≤ level_most }
        ensures { result ≡ below_of self tall side at }
    {
        Section {
            at,
            level: self.level + 1,
            width: part_width(tall, self.width, side),
            height: part_height(tall, self.height, side),
        }
    }
}

// Writes the line of a node.
#[tactic(auto, unfolding(crate::specs::Inner::node_text))]
fn put_node(text: &mut Text, section: Section, earning: usize, node: Node)
    ensures { Writes text.old (node_text section earning node) text.new }
{
    match node {
        Node::Line(tall, c) => put_line(text, section, earning, Kind::of_line(tall), c),
        Node::Piece(number) => put_line(text, section, earning, Kind::Piece, number),
        Node::Scrap => put_line(text, section, earning, Kind::Scrap, 0),
    }
}

// The lines of a part, and the place behind its nodes; or none, where a rule is broken. What a part earns is read before its first
// line is printed.
pub fn list(nodes: &Nodes, section: Section, text: &mut Text) -> Option<usize>
    requires { MayList (pieces_in nodes.now) section }
    ensures { ListsThere (pieces_in nodes.now) nodes.now.bytes.now section text.old result text.new }
{
    let node = nodes.node_at(section.at, section.width, section.height)?;
    let read = nodes.read(section.at, section.width, section.height)?;
    put_node(text, section, read.leaves.value as usize, node);
    match node {
        Node::Line(tall, c) => {
            let near = usize::from(c);
            let far = rest(crossed(tall, section.width, section.height), near);
            let middle = list(
                nodes,
                section.below(tall, near, section.at + NODE_LENGTH),
                text,
            )?;
            list(nodes, section.below(tall, far, middle), text)
        }
        Node::Piece(_) | Node::Scrap => Some(read.at),
    }
}
