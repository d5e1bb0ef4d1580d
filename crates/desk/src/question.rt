// Ask: fills the box of the question and answers its last cell, with the number of cells worked out.
ghost use Rattle.std.specs.Prelude.{◌≡◌};
ghost use Rattle.cutting.specs.Piece.{Inside};
ghost use Rattle.cells.specs.Cells.{cell_of};
ghost use Rattle.cells.specs.Box.{is_empty, count_in_box};
ghost use Rattle.fill.specs.Filled.{Bounded};
ghost use Rattle.desk.specs.Refusals.{Usable};
ghost use Rattle.desk.specs.Inner.{filled_for, asked_from, AskPromise};

use crate::refusal;
use board::Board;
use job::Job;
use refusals::Refusal;

// The answer of ask.
#[derive(Clone, Copy, Debug, PartialEq, Eq)]
pub struct Answer {
    pub value: u32,
    // The cells that were worked out for it.
    pub worked: u32,
}

// Fills the box x by y: the board is laid out once for the whole box, and not at all where no cell is empty.
#[tactic(auto, using(crate::proofs::Exactly::usable_box))]
fn fill_for(job: &Job, t: &mut [u32], x: usize, y: usize) -> u32
    requires usable { Usable job.now t.old }
    requires inside { Inside x y job.now.width job.now.height }
    requires bounded { Bounded (cell_of job.now.width t.old) x y }
    ensures worked { result ≡ count_in_box x y (is_empty job.now.width t.old) }
    ensures after { t.new ≡ filled_for job.now t.old x y }
{
    if !cells::has_empty(t, usize::from(job.width), x, y) {
        return 0;
    }
    let mut board = Board::of_pieces(job);
    board.set_points();
    fill::fill_box(t, &board, x, y)
}

// The best value of x by y, and the number of cells that had to be worked out for it.
#[tactic(auto, using(crate::proofs::Granted::ask_granted, crate::proofs::Granted::cell_there))]
pub fn ask(job: &Job, t: &mut [u32], x: u32, y: u32) -> Result<Answer, Refusal>
    ensures { AskPromise job.now t.old x y (asked_from result) t.new }
{
    refusal::of_ask(job, t, x, y)?;
    let worked = fill_for(job, t, x as usize, y as usize);
    let value = cells::cell(t, usize::from(job.width), x as usize, y as usize);
    Ok(Answer { value, worked })
}
