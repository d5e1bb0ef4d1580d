// The job by value: one sheet and up to 64 pieces, with their limits.
// change.rt: a piece more, changed, less; block.rt: the job block.
#![tactic(auto)]

ghost use Rattle.std.specs.Prelude.{◌≡◌, [], ◌≤◌, length, take};
ghost use Rattle.cutting.specs.Limits.{pieces_max};
ghost use Rattle.job.specs.Job.{job_of};
ghost use Rattle.job.specs.Inner.{within, piece_in_range, pieces_in_range, job_in_range};

pub mod block;
mod change;

#[repr(C)]
#[derive(Clone, Copy, Debug, Default, PartialEq, Eq, Hash)]
pub struct Piece {
    pub width: u16,
    pub height: u16,
    pub value: u16,
}

// The records of a job: as many as it may have pieces.
pub type Records = [Piece; Job::PIECES_MAX as usize];

// As C lays it out: a count beside its records. C hands it over with any numbers in it, so that no invariant holds of it, and
// each function says what it needs of `count`.
#[repr(C)]
#[derive(Clone, Copy, Debug, Default, PartialEq, Eq, Hash)]
pub struct Job {
    pub width: u16,
    pub height: u16,
    pub count: u16,
    pub pieces: Records,
}

// Is n in the range 1 to most?
fn in_limits(n: u16, most: u16) -> bool
    ensures { result ≡ within n most }
{
    (1..=most).contains(&n)
}

impl Piece {
    pub const SIZE_MAX: u16 = 4_095;

    pub const VALUE_MAX: u16 = 65_535;

    #[tactic(auto, unfolding(crate::specs::Inner::piece_in_range))]
    pub fn in_range(self) -> bool
        ensures { result ≡ piece_in_range self }
    {
        in_limits(self.width, Piece::SIZE_MAX)
            && in_limits(self.height, Piece::SIZE_MAX)
            && in_limits(self.value, Piece::VALUE_MAX)
    }
}

impl Job {
    pub const SIDE_MAX: u16 = 240;

    pub const PIECES_MAX: u16 = 64;

    // A fresh job: no pieces yet.
    pub fn new(width: u16, height: u16) -> Job
        ensures { result ≡ job_of width height [] }
    {
        Job {
            width,
            height,
            ..Job::default()
        }
    }

    // Its pieces: the first n records.
    pub fn pieces(&self) -> &[Piece]
        requires { self.now.count ≤ pieces_max }
        ensures records { result.now ≡ take self.now.count self.now.pieces }
        ensures many { length result.now ≡ self.now.count }
    {
        &self.pieces[..usize::from(self.count)]
    }

    #[tactic(auto, unfolding(crate::specs::Inner::job_in_range))]
    pub fn in_range(self) -> bool
        ensures { result ≡ job_in_range self }
    {
        in_limits(self.width, Job::SIDE_MAX)
            && in_limits(self.height, Job::SIDE_MAX)
            && self.count <= Job::PIECES_MAX
            && self.pieces_in_range()
    }

    fn pieces_in_range(&self) -> bool
        requires { self.now.count ≤ pieces_max }
        ensures { result ≡ pieces_in_range self.now }
    {
        self.pieces().iter().all(|piece| piece.in_range())
    }
}
