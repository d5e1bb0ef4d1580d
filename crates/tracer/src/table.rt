// What a tree is read from.
ghost use Rattle.std.specs.Prelude.{ℕ, ◌≤◌, ◌<◌};
ghost use Rattle.board.specs.Inner.{rows_on};

use board::Board;

// The board of a job and the cells of its sheet. Every piece is at least 1 by 1, or nothing would shrink.
#[derive(Clone, Copy)]
pub struct Table<'a> {
    pub board: &'a Board,
    pub cells: &'a [u32],
    ghost sized: { (k : ℕ) → k < (rows_on board.now).count → (1 ≤ (rows_on board.now).width k) × (1 ≤ (rows_on board.now).height k) },
}
