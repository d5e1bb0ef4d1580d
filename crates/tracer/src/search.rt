// The first piece and the least line that the rules ask for.
// A rectangle goes as two numbers, as in the recursion (walk.rt).
ghost use Rattle.std.specs.Prelude.{◌≡◌, ◌&&◌, ◌≤◌, ℕ, Bool};
ghost use Rattle.cutting.specs.Candidate.{UpToHalf};
ghost use Rattle.cutting.specs.Dissection.{crossed as crossed_of};
ghost use Rattle.cells.specs.Cells.{empty};
ghost use Rattle.tracer.specs.Inner.{two_cells, is_size, fits_in, Answers, first_piece, adds_to, least_line, rows_in, cell_in, OnSheet};

use crate::table::Table;
use board::line::{crossed, part_height, part_width, rest};
use cells::cell;

// The number in the cell of a rectangle.
pub fn number_of(table: &Table, width: usize, height: usize) -> usize
    requires { OnSheet table.now width height }
    ensures value { result ≡ cell_in table.now width height }
    ensures upper_bound { result ≤ empty }
{
    cell(table.cells, table.board.width(), width, height) as usize
}

// The number of the first piece of this value whose size suits.
#[tactic(auto, using(crate::proofs::Found::piece_found, crate::proofs::Found::no_piece), unfolding(crate::specs::Inner::suits, board::specs::Inner::rows_on))]
fn first_piece<F: Fn(usize, usize) -> bool>(table: &Table, number: usize, suits: F) -> Option<u16>
    requires { F.IsAlwaysCallable suits }
    ensures { (test : ℕ → Bool) → Answers (rows_in table.now) (F.post suits) test → result ≡ first_piece (rows_in table.now) test number }
{
    let pieces = table.board.pieces();
    for (k, piece) in pieces.iter().enumerate() {
        if usize::from(piece.value) == number
            && suits(usize::from(piece.width), usize::from(piece.height))
        {
            return Some(k as u16 + 1);
        }
    }
    None
}

// The first piece of exactly this size (rule 6.2), and the first that fits (rule 6.5).
pub(crate) fn exact_piece(table: &Table, width: usize, height: usize, number: usize) -> Option<u16>
    ensures { result ≡ first_piece (rows_in table.now) (is_size (rows_in table.now) width height) number }
{
    first_piece(table, number, |p, q| p == width && q == height)
}

pub(crate) fn fitting_piece(
    table: &Table,
    width: usize,
    height: usize,
    number: usize,
) -> Option<u16>
    ensures { result ≡ first_piece (rows_in table.now) (fits_in (rows_in table.now) width height) number }
{
    first_piece(table, number, |p, q| p <= width && q <= height)
}

// What the cells of a line's two parts add to.
#[tactic(auto, using(crate::proofs::Parts::part_table), unfolding(crate::specs::Inner::two_cells))]
fn two_cells(table: &Table, tall: bool, width: usize, height: usize, c: usize) -> usize
    requires inside { OnSheet table.now width height }
    requires half { (1 ≤ c) × UpToHalf c (crossed_of tall width height) }
    ensures { result ≡ two_cells (cell_in table.now) tall width height c }
{
    let r = rest(crossed(tall, width, height), c);
    number_of(
        table,
        part_width(tall, width, c),
        part_height(tall, height, c),
    ) + number_of(
        table,
        part_width(tall, width, r),
        part_height(tall, height, r),
    )
}

// Is c marked, and do the two cells of a line at c add to this number?
#[tactic(auto, unfolding(crate::specs::Inner::adds_to, board::specs::Inner::rows_on))]
fn adds_to(table: &Table, tall: bool, number: usize, width: usize, height: usize, c: usize) -> bool
    requires inside { OnSheet table.now width height }
    requires half { (1 ≤ c) × UpToHalf c (crossed_of tall width height) }
    ensures { result ≡ adds_to (rows_in table.now) (cell_in table.now) tall number width height c }
{
    table.board.marked(tall, c) && two_cells(table, tall, width, height, c) == number
}

// The least marked c up to half of the side whose two cells add to this number.
#[tactic(auto, using(crate::proofs::Found::line_found, crate::proofs::Found::no_line))]
pub fn least_line(
    table: &Table,
    tall: bool,
    number: usize,
    width: usize,
    height: usize,
) -> Option<u16>
    requires { OnSheet table.now width height }
    ensures { result ≡ least_line (rows_in table.now) (cell_in table.now) tall number width height }
{
    for c in 1..=crossed(tall, width, height) / 2 {
        if adds_to(table, tall, number, width, height, c) {
            return Some(c as u16);
        }
    }
    None
}
