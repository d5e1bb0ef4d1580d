// The lines across a row: the most that a marked line gives.
// Its loop and two of floor.rt with `..=`: cold asks take 55 to 96 % more instructions (24,647,846 became 39,695,844). So all say `.. + 1`.
ghost use Rattle.std.specs.Prelude.{◌≡◌, false, ◌≤◌, ◌<◌};
ghost use Rattle.board.specs.Inner.{width_on, marked_at};
ghost use Rattle.fill.specs.Inner.{cell_on, line_at, line_value, RowLines};

use crate::look::cell;
use board::Board;
use board::line::rest;

// What a line at c through row w, of length x, gives: its two parts' numbers where c is marked, else 0.
// Both are read before the mark is looked at, so that the loop has no branch.
fn line_at(t: &[u32], board: &Board, w: usize, x: usize, c: usize) -> u32
    requires row_lines { RowLines (width_on board.now) t.now w x }
    requires before { (1 ≤ c) × (c < x) }
    ensures { result ≡ line_at (marked_at board.now false) (λ k. cell_on board.now t.now k w) x c }
{
    let both = cell(t, board, c, w) + cell(t, board, rest(x, c), w);
    if board.marked(false, c) { both } else { 0 }
}

// The most that a marked line through row w, of length x, gives, up to the middle.
pub fn line_value(t: &[u32], board: &Board, w: usize, x: usize) -> u32
    requires { RowLines (width_on board.now) t.now w x }
    ensures { result ≡ line_value (marked_at board.now false) (λ k. cell_on board.now t.now k w) x }
{
    let mut best: u32 = 0;
    for c in 1..x / 2 + 1 {
        best = best.max(line_at(t, board, w, x, c));
    }
    best
}
