// The filling of a box: each empty cell gets its worth by the rule, from small to large. No promise speaks of that order.
// floor.rt: what a row's cells are worth without a line across; value.rt: the lines across; look.rt: where a cell lies.
#![tactic(auto)]

ghost use Rattle.std.specs.Prelude.{◌≡◌, false, ◌≤◌};
ghost use Rattle.cells.specs.Inner.{Holds};
ghost use Rattle.cells.specs.Box.{is_empty, counted, count_in_row, count_in_box};
ghost use Rattle.board.specs.Inner.{width_on, height_on, marked_at, rows_on};
ghost use Rattle.fill.specs.Inner.{cell_raised, FullBefore, filled_on, Around, RowReady, BoxReady};

mod floor;
mod look;
mod value;

use board::Board;
use floor::floor_of;
use look::{cell, row_has_empty, store};

// Works cell (u, w) out where it is empty, from its floor and the lines across. Answers how many cells that were, 0 or 1.
fn fill_cell(t: &mut [u32], board: &Board, u: usize, w: usize, floor: u32) -> u32
    requires { Around (width_on board.now) t.old u w }
    ensures worked { result ≡ counted (is_empty (width_on board.now) t.old u w) }
    ensures after { t.new ≡ cell_raised floor (marked_at board.now false) (width_on board.now) u w t.old }
{
    if cell(t, board, u, w) != cells::EMPTY {
        return 0;
    }
    let line = value::line_value(t, board, w, u);
    store(t, board, u, w, floor.max(line));
    1
}

// A column of row w before which no cell is empty: the first empty one, or the one after x.
// x + 1 is the column after x and no code for "none": from there on nothing is filled.
fn first_empty(t: &[u32], board: &Board, x: usize, w: usize) -> usize
    requires { Holds (width_on board.now) w t.now × (x ≤ width_on board.now) }
    ensures { FullBefore (width_on board.now) t.now x w result }
{
    (1..x + 1)
        .find(|u| cell(t, board, *u, w) == cells::EMPTY)
        .unwrap_or(x + 1)
}

// Fills row w from column `from` up to column x. Answers how many of its cells were empty.
fn fill_columns(t: &mut [u32], board: &Board, from: usize, x: usize, w: usize) -> u32
    requires row_ready { RowReady (rows_on board.now) (width_on board.now) (height_on board.now) x w t.old }
    requires full_before { FullBefore (width_on board.now) t.old x w from }
    ensures worked { result ≡ count_in_row x w (is_empty (width_on board.now) t.old) }
    ensures after { t.new ≡ filled_on board.now x w t.old }
{
    let floor = floor_of(t, board, from, x, w);
    let mut worked = 0;
    for u in from..x + 1 {
        worked += fill_cell(t, board, u, w, floor[u]);
    }
    worked
}

// Fills row w up to column x. Answers how many of its cells were empty; where none was, nothing is worked out.
fn fill_row(t: &mut [u32], board: &Board, x: usize, w: usize) -> u32
    requires { RowReady (rows_on board.now) (width_on board.now) (height_on board.now) x w t.old }
    ensures worked { result ≡ count_in_row x w (is_empty (width_on board.now) t.old) }
    ensures after { t.new ≡ filled_on board.now x w t.old }
{
    if !row_has_empty(t, board, x, w) {
        return 0;
    }
    let from = first_empty(t, board, x, w);
    fill_columns(t, board, from, x, w)
}

// Fills the box x by y of the sheet on the board. Answers how many of its cells were empty.
// Kept out of its caller: its row of numbers takes no stack while the board is made there (decision 49).
#[inline(never)]
pub fn fill_box(t: &mut [u32], board: &Board, x: usize, y: usize) -> u32
    requires { BoxReady (rows_on board.now) (width_on board.now) (height_on board.now) x y t.old }
    ensures worked { result ≡ count_in_box x y (is_empty (width_on board.now) t.old) }
    ensures after { t.new ≡ filled_on board.now x y t.old }
{
    let mut worked = 0;
    for w in 1..y + 1 {
        worked += fill_row(t, board, x, w);
    }
    worked
}
