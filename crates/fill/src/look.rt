// Where a cell or a row of the sheet on a board lies in the table: the one look-up. Everyone else says (x, y).
// The row of cells and the board stay two parameters, for the reason that cells gives.
ghost use Rattle.std.specs.Prelude.{◌≡◌, ◌≤◌, set};
ghost use Rattle.cutting.specs.Piece.{Inside};
ghost use Rattle.cells.specs.Cells.{cell_of, place};
ghost use Rattle.cells.specs.Box.{is_empty};
ghost use Rattle.cells.specs.Inner.{Holds, any_in_row};
ghost use Rattle.board.specs.Inner.{width_on};

use board::Board;

pub fn cell(t: &[u32], board: &Board, x: usize, y: usize) -> u32
    requires holds { Holds (width_on board.now) y t.now }
    requires inside { Inside x y (width_on board.now) y }
    ensures { result ≡ cell_of (width_on board.now) t.now x y }
{
    cells::cell(t, board.width(), x, y)
}

pub fn store(t: &mut [u32], board: &Board, x: usize, y: usize, value: u32)
    requires holds { Holds (width_on board.now) y t.old }
    requires inside { Inside x y (width_on board.now) y }
    ensures { t.new ≡ set t.old (place (width_on board.now) x y) value }
{
    cells::store(t, board.width(), x, y, value);
}

pub fn row_has_empty(t: &[u32], board: &Board, x: usize, w: usize) -> bool
    requires { Holds (width_on board.now) w t.now × (x ≤ width_on board.now) }
    ensures { result ≡ any_in_row x w (is_empty (width_on board.now) t.now) }
{
    cells::row_has_empty(t, board.width(), x, w)
}
