// The board: all that the engine knows of a job, read from it once.
// points.rt: the marks of P and Q; line.rt: what a line leaves.
#![tactic(auto)]

use job::{Job, Piece};
use points::mark;

pub mod line;
mod points;

// Room for records: more than a job has pieces.
pub const ENTRIES: usize = 128;

// One mark for each number that a side can be, and one for zero, which is never set.
pub const MARKS: usize = Job::SIDE_MAX as usize + 1;

pub type Marks = [bool; MARKS];

// What the engine reads of a job besides the cells.
#[derive(Clone, Copy)]
pub struct Board {
    width: u16,
    height: u16,
    count: u16,
    // The first n, and blank ones behind: fixed memory.
    pieces: [Piece; ENTRIES],
    across: Marks,
    up: Marks,
}

impl Board {
    ghost use Rattle.std.specs.Prelude.{◌≡◌, ◌<◌, ◌≤◌, length};
    ghost use Rattle.cutting.specs.Limits.{side_max, pieces_max};
    ghost use Rattle.board.specs.Inner.{entries, width_on, height_on, count_on, records_on, width_at, height_at, value_at, marked_at, pieces_board, Unmarked, with_points};

    // The job's sides and pieces, without marks: all that reading a plan file needs.
    pub fn of_pieces(job: &Job) -> Board
        requires { job.now.count ≤ pieces_max }
        ensures { result ≡ pieces_board job.now }
    {
        let mut pieces = [Piece::default(); ENTRIES];
        pieces[..usize::from(job.count)].copy_from_slice(job.pieces());
        Board {
            width: job.width,
            height: job.height,
            count: job.count,
            pieces,
            across: [false; MARKS],
            up: [false; MARKS],
        }
    }

    // Marks P from the widths and Q from the heights, where the marks stand: none is moved or copied (rule 3.6).
    pub fn set_points(&mut self)
        requires { Unmarked self.old }
        ensures { self.new ≡ with_points self.old }
    {
        let n = self.count();
        let width = self.width();
        let height = self.height();
        mark(
            &mut self.across,
            &self.pieces[..n],
            |piece| piece.width,
            width,
        );
        mark(
            &mut self.up,
            &self.pieces[..n],
            |piece| piece.height,
            height,
        );
    }

    pub fn width(&self) -> usize
        ensures { result ≡ width_on self.now }
    {
        usize::from(self.width)
    }

    pub fn height(&self) -> usize
        ensures { result ≡ height_on self.now }
    {
        usize::from(self.height)
    }

    pub fn count(&self) -> usize
        ensures { result ≡ count_on self.now }
    {
        usize::from(self.count).min(ENTRIES)
    }

    // Its pieces: the first n records.
    pub fn pieces(&self) -> &[Piece]
        ensures records { result.now ≡ records_on self.now }
        ensures many { length result.now ≡ count_on self.now }
    {
        &self.pieces[..self.count()]
    }

    pub fn piece(&self, k: usize) -> Piece
        requires { k < entries }
        ensures width { result.width ≡ width_at self.now k }
        ensures height { result.height ≡ height_at self.now k }
        ensures value { result.value ≡ value_at self.now k }
    {
        self.pieces[k]
    }

    // Is c a point: of the height (Q) where `tall`, else of the width (P)?
    pub fn marked(&self, tall: bool, c: usize) -> bool
        requires { c ≤ side_max }
        ensures { result ≡ marked_at self.now tall c }
    {
        let marks = if tall { &self.up } else { &self.across };
        marks[c]
    }
}
