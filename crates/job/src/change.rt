// The job with a piece more, a piece changed, a piece less. Records past the last piece come out as zeros.
ghost use Rattle.std.specs.Prelude.{◌≡◌, ◌≤◌, ◌<◌};
ghost use Rattle.cutting.specs.Limits.{pieces_max};
ghost use Rattle.job.specs.Job.{pieces_of, job_of};
ghost use Rattle.job.specs.Change.{with_added, with_corrected, with_removed};

use crate::{Job, Piece};

impl Job {
    // The same pieces, and zeros in the records behind them.
    fn tidied(mut self) -> Job
        requires { self.count ≤ pieces_max }
        ensures { result ≡ job_of self.width self.height (pieces_of self) }
    {
        let count = usize::from(self.count);
        self.pieces[count..].fill(Piece::default());
        self
    }

    pub fn with_added(mut self, piece: Piece) -> Job
        requires { self.count < pieces_max }
        ensures { result ≡ with_added self piece }
    {
        self.pieces[usize::from(self.count)] = piece;
        self.count += 1;
        self.tidied()
    }

    pub fn with_corrected(self, number: u32, piece: Piece) -> Job
        requires few { self.count ≤ pieces_max }
        requires number { (1 ≤ number) × (number ≤ self.count) }
        ensures { result ≡ with_corrected self number piece }
    {
        let mut job = self.tidied();
        job.pieces[number as usize - 1] = piece;
        job
    }

    pub fn with_removed(mut self, number: u32) -> Job
        requires few { self.count ≤ pieces_max }
        requires number { (1 ≤ number) × (number ≤ self.count) }
        ensures { result ≡ with_removed self number }
    {
        let behind = number as usize;
        let count = usize::from(self.count);
        self.pieces.copy_within(behind..count, behind - 1);
        self.count -= 1;
        self.tidied()
    }
}
