// The C face: the calls under the names and layouts of include/khonvertseg.h, which `khonvertseg_c` exports.
#![tactic(auto)]

ghost use Rattle.std.specs.Prelude.{◌≡◌};
ghost use Rattle.desk.specs.Inner.{changed_from, asked_from};
ghost use Rattle.plan.specs.Planning.{planned_from};
ghost use Rattle.checker.specs.Checked.{checked_from};
ghost use Rattle.khonvertseg.specs.Flat.{flat_changed, flat_asked, flat_planned, flat_checked};
ghost use Rattle.khonvertseg.specs.Calls.{KhonOpens, KhonAdds, KhonCorrects, KhonRemoves, AsksBlock, KhonAsks, PlansBlock, KhonPlans, KhonChecks};

use checker::Accepted;
use desk::change;
use desk::question::{self, Answer};
use job::block::from_block;
use job::{Job, Piece};
use plan::Written;
use refusals::Refusal;

// The answers as C has them (include/khonvertseg.h): a number beside the values.

// khon_changed
#[repr(C)]
#[derive(Clone, Copy, Debug, Default, PartialEq, Eq)]
pub struct KhonChanged {
    pub refusal: u32,
    pub job: Job,
}

// khon_asked
#[repr(C)]
#[derive(Clone, Copy, Debug, Default, PartialEq, Eq)]
pub struct KhonAsked {
    pub refusal: u32,
    pub value: u32,
    pub worked: u32,
}

// khon_planned
#[repr(C)]
#[derive(Clone, Copy, Debug, Default, PartialEq, Eq)]
pub struct KhonPlanned {
    pub refusal: u32,
    pub length: u32,
    pub value: u32,
}

// khon_checked
#[repr(C)]
#[derive(Clone, Copy, Debug, Default, PartialEq, Eq)]
pub struct KhonChecked {
    pub refusal: u32,
    pub value: u32,
    pub note: u32,
    pub piece_area: u32,
    pub scrap_area: u32,
}

impl KhonChanged {
    // The job after the change, or the refusal's number and the job that is left.
    // Not From: the job that is left comes from the caller.
    fn of(answer: Result<Job, Refusal>, left: &Job) -> KhonChanged
        ensures { result ≡ flat_changed (changed_from left.now answer) }
    {
        match answer {
            Ok(job) => KhonChanged { refusal: 0, job },
            Err(refusal) => KhonChanged {
                refusal: u32::from(refusal),
                job: *left,
            },
        }
    }
}

// Three impls, since each answer has fields of its own.
impl From<Result<Answer, Refusal>> for KhonAsked {
    ghost from_gives = { λ answer r. r ≡ flat_asked (asked_from answer) };

    fn from(answer: Result<Answer, Refusal>) -> KhonAsked {
        match answer {
            Ok(Answer { value, worked }) => KhonAsked {
                refusal: 0,
                value,
                worked,
            },
            Err(refusal) => KhonAsked {
                refusal: u32::from(refusal),
                ..KhonAsked::default()
            },
        }
    }
}

impl From<Result<Written, Refusal>> for KhonPlanned {
    ghost from_gives = { λ answer r. r ≡ flat_planned (planned_from answer) };

    fn from(answer: Result<Written, Refusal>) -> KhonPlanned {
        match answer {
            Ok(Written { length, value }) => KhonPlanned {
                refusal: 0,
                length,
                value,
            },
            Err(refusal) => KhonPlanned {
                refusal: u32::from(refusal),
                ..KhonPlanned::default()
            },
        }
    }
}

impl From<Result<Accepted, Refusal>> for KhonChecked {
    ghost from_gives = { λ answer r. r ≡ flat_checked (checked_from answer) };

    fn from(answer: Result<Accepted, Refusal>) -> KhonChecked {
        match answer {
            Ok(
                Accepted {
                    value,
                    note,
                    piece_area,
                    scrap_area,
                },
            ) => KhonChecked {
                refusal: 0,
                value,
                note,
                piece_area,
                scrap_area,
            },
            Err(refusal) => KhonChecked {
                refusal: u32::from(refusal),
                ..KhonChecked::default()
            },
        }
    }
}

#[tactic(auto, using(desk::proofs::Words::open_exactly, job::proofs::Pieces::is_zero_job))]
pub fn khon_open(width: u32, height: u32, cells: &mut [u32]) -> KhonChanged
    ensures { KhonOpens width height cells.old result cells.new }
{
    KhonChanged::of(change::open(width, height, cells), &Job::default())
}

#[tactic(auto, using(desk::proofs::Words::add_exactly))]
pub fn khon_add(job: Job, cells: &mut [u32], piece: Piece) -> KhonChanged
    ensures { KhonAdds job cells.old piece result cells.new }
{
    KhonChanged::of(change::add(job, cells, piece), &job)
}

#[tactic(auto, using(desk::proofs::Words::correct_exactly))]
pub fn khon_correct(job: Job, cells: &mut [u32], number: u32, piece: Piece) -> KhonChanged
    ensures { KhonCorrects job cells.old number piece result cells.new }
{
    KhonChanged::of(change::correct(job, cells, number, piece), &job)
}

#[tactic(auto, using(desk::proofs::Words::remove_exactly))]
pub fn khon_remove(job: Job, cells: &mut [u32], number: u32) -> KhonChanged
    ensures { KhonRemoves job cells.old number result cells.new }
{
    KhonChanged::of(change::remove(job, cells, number), &job)
}

// Bytes that are no job block get 1 (rule 4.14). As one function with plan_block it would take its call as a closure: longer than both.
fn ask_block(block: &[u8], cells: &mut [u32], x: u32, y: u32) -> Result<Answer, Refusal>
    ensures { AsksBlock block.now cells.old x y (asked_from result) cells.new }
{
    question::ask(&from_block(block).ok_or(Refusal::BadJob)?, cells, x, y)
}

pub fn khon_ask(block: &[u8], cells: &mut [u32], x: u32, y: u32) -> KhonAsked
    ensures { KhonAsks block.now cells.old x y result cells.new }
{
    KhonAsked::from(ask_block(block, cells, x, y))
}

// Bytes that are no job block get 1 (rule 4.14).
fn plan_block(
    block: &[u8],
    cells: &[u32],
    x: u32,
    y: u32,
    file: &mut [u8],
) -> Result<Written, Refusal>
    ensures { PlansBlock block.now cells.now x y file.old (planned_from result) file.new }
{
    plan::plan(
        &from_block(block).ok_or(Refusal::BadJob)?,
        cells,
        x,
        y,
        file,
    )
}

pub fn khon_plan(block: &[u8], cells: &[u32], x: u32, y: u32, file: &mut [u8]) -> KhonPlanned
    ensures { KhonPlans block.now cells.now x y file.old result file.new }
{
    KhonPlanned::from(plan_block(block, cells, x, y, file))
}

#[tactic(auto, using(checker::proofs::Given::given_exactly))]
pub fn khon_check(file: &[u8]) -> KhonChecked
    ensures { KhonChecks file.now result }
{
    KhonChecked::from(checker::check(file))
}
