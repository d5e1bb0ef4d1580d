// The rule of each letter: what its node is on a part of this width and height, and whether it is broken.
ghost use Rattle.std.specs.Prelude.{◌≡◌};
ghost use Rattle.board.specs.Inner.{pieces_on};
ghost use Rattle.nodes.specs.Inner.{line_node, piece_node, scrap_node, letter_node};

use crate::Node;
use board::Board;
use board::line::crossed;
use fields::format::{HORIZONTAL, PIECE, SCRAP, VERTICAL};

// `V` and c, `H` and d: a line through a side (rule 8.5).
#[tactic(auto, unfolding(crate::specs::Inner::is_inside))]
fn line_node(tall: bool, side: usize, number: u16) -> Option<Node>
    ensures { result ≡ line_node tall side number }
{
    (1..side)
        .contains(&usize::from(number))
        .then_some(Node::Line(tall, number))
}

// `P` and the number of a piece of exactly this size (rule 8.5).
// In steps: with `then_some` check (bench/run) takes 0.8 % more instructions, with `pieces().get` besides 3.2 %.
fn piece_node(board: &Board, number: u16, width: usize, height: usize) -> Option<Node>
    ensures { result ≡ piece_node (pieces_on board.now) number width height }
{
    let k = usize::from(number);
    if k == 0 {
        return None;
    }
    let last = board.count();
    if k > last {
        return None;
    }
    let piece = board.piece(k - 1);
    if usize::from(piece.width) != width {
        return None;
    }
    if usize::from(piece.height) != height {
        return None;
    }
    Some(Node::Piece(number))
}

// `S` and 0 (rule 8.5).
fn scrap_node(number: u16) -> Option<Node>
    ensures { result ≡ scrap_node number }
{
    (number == 0).then_some(Node::Scrap)
}

// A node by its letter and its number.
pub(crate) fn by_letter(
    board: &Board,
    letter: u8,
    number: u16,
    width: usize,
    height: usize,
) -> Option<Node>
    ensures { result ≡ letter_node (pieces_on board.now) letter number width height }
{
    match letter {
        VERTICAL => line_node(false, crossed(false, width, height), number),
        HORIZONTAL => line_node(true, crossed(true, width, height), number),
        PIECE => piece_node(board, number, width, height),
        SCRAP => scrap_node(number),
        _ => None,
    }
}
