// The floor of a row: what each of its cells is worth without a line across. It is found for a whole row at once, piece by
// piece and line by line, so that the inner loops go along the row.
// A span of columns is two numbers, from and x: a struct of them would be taken apart in every loop and made anew for each piece.
ghost use Rattle.std.specs.Prelude.{◌≡◌, ◌≤◌, ◌<◌, max, get_or};
ghost use Rattle.cutting.specs.Limits.{side_max};
ghost use Rattle.board.specs.Inner.{width_on};
ghost use Rattle.fill.specs.Inner.{Raises, Columns, LinesUp, value_in, fitting_on, lines_on, parts_on, floor_on};

use crate::look::cell;
use board::line::rest;
use board::{Board, MARKS};
use job::Piece;

// A number for each column, from 1 on.
pub type Floor = [u32; MARKS];

// Raises the floor of the columns from..=x to a value.
fn raise_to(floor: &mut Floor, from: usize, x: usize, value: u32)
    requires { x ≤ side_max }
    ensures { Raises from x (λ u. value) floor.old floor.new }
{
    for u in from..x + 1 {
        floor[u] = floor[u].max(value);
    }
}

// Raises the floor of the columns from..=x by a piece, where it fits in row w.
fn raise_by_piece(floor: &mut Floor, from: usize, x: usize, w: usize, piece: Piece)
    requires { x ≤ side_max }
    ensures { Raises from x (λ u. value_in piece.width piece.height piece.value u w) floor.old floor.new }
{
    if usize::from(piece.height) <= w {
        raise_to(
            floor,
            from.max(usize::from(piece.width)),
            x,
            u32::from(piece.value),
        );
    }
}

// Raises the floor of the columns from..=x by every piece.
fn raise_by_pieces(floor: &mut Floor, board: &Board, from: usize, x: usize, w: usize)
    requires bound { x ≤ side_max }
    requires columns { Columns from x (λ u. 0) floor.old }
    ensures { Columns from x (λ u. fitting_on board.now u w) floor.new }
{
    for piece in board.pieces() {
        raise_by_piece(floor, from, x, w, *piece);
    }
}

// Raises the floor of the columns from..=x by the line at d of each column up to row w.
fn raise_by_line(
    floor: &mut Floor,
    t: &[u32],
    board: &Board,
    from: usize,
    x: usize,
    w: usize,
    d: usize,
)
    requires lines_up { LinesUp (width_on board.now) t.now from x w }
    requires before { (1 ≤ d) × (d < w) }
    ensures { Raises from x (parts_on board.now t.now w d) floor.old floor.new }
{
    let far = rest(w, d);
    for u in from..x + 1 {
        floor[u] = floor[u].max(cell(t, board, u, d) + cell(t, board, u, far));
    }
}

// Raises the floor of the columns from..=x by every marked line up to the middle of row w.
fn raise_by_lines(floor: &mut Floor, t: &[u32], board: &Board, from: usize, x: usize, w: usize)
    requires { LinesUp (width_on board.now) t.now from x w }
    ensures { Columns from x (λ u. max (get_or floor.old u 0) (lines_on board.now t.now w u)) floor.new }
{
    for d in 1..w / 2 + 1 {
        if board.marked(true, d) {
            raise_by_line(floor, t, board, from, x, w, d);
        }
    }
}

// The floor of the columns from..=x of row w.
pub fn floor_of(t: &[u32], board: &Board, from: usize, x: usize, w: usize) -> Floor
    requires { LinesUp (width_on board.now) t.now from x w }
    ensures { Columns from x (floor_on board.now t.now w) result }
{
    let mut floor: Floor = [0; MARKS];
    raise_by_pieces(&mut floor, board, from, x, w);
    raise_by_lines(&mut floor, t, board, from, x, w);
    floor
}
