// What each call on a table refuses, row by row.
// Each goal is about what a list of refusals computes.
#![tactic(auto, unfolding(
// a job
crate::specs::Inner::job_refused, crate::specs::Inner::job_refusals, crate::specs::Inner::job_tests,
// open
crate::specs::Inner::open_refused, crate::specs::Refusals::open_refusals, crate::specs::Inner::open_tests,
// add
crate::specs::Inner::add_refused, crate::specs::Refusals::add_refusals, crate::specs::Inner::add_tests,
// correct
crate::specs::Inner::correct_refused, crate::specs::Refusals::correct_refusals, crate::specs::Inner::correct_tests,
// remove
crate::specs::Inner::remove_refused, crate::specs::Refusals::remove_refusals, crate::specs::Inner::remove_tests,
// ask
crate::specs::Inner::ask_refused, crate::specs::Refusals::ask_refusals, crate::specs::Inner::ask_tests,
// what a list gives
laws::specs::Inner::number_given))]

ghost use Rattle.std.specs.Prelude.{◌≡◌, ◌&&◌};
ghost use Rattle.job.specs.Inner.{within};
ghost use Rattle.refusals.specs.Refusals.{refused};
ghost use Rattle.desk.specs.Inner.{job_refused, open_refused, add_refused, correct_refused, remove_refused, ask_refused};

use job::{Job, Piece};
use refusals::Refusal;

// Does x by y lie inside a by b?
pub fn inside(x: u32, y: u32, a: u16, b: u16) -> bool
    ensures { result ≡ (within x a && within y b) }
{
    (1..=u32::from(a)).contains(&x) && (1..=u32::from(b)).contains(&y)
}

pub fn of_job(job: &Job, t: &[u32]) -> Result<(), Refusal>
    ensures { refused result ≡ job_refused job.now t.now }
{
    if !job.in_range() {
        return Err(Refusal::BadJob);
    }
    if t.len() < usize::from(job.width) * usize::from(job.height) {
        return Err(Refusal::ShortTable);
    }
    Ok(())
}

pub(crate) fn of_open(a: u32, b: u32, t: &[u32]) -> Result<(), Refusal>
    ensures { refused result ≡ open_refused a b t.now }
{
    if !inside(a, b, Job::SIDE_MAX, Job::SIDE_MAX) {
        return Err(Refusal::BadJob);
    }
    if t.len() < a as usize * b as usize {
        return Err(Refusal::ShortTable);
    }
    Ok(())
}

pub(crate) fn of_add(job: &Job, t: &[u32], piece: Piece) -> Result<(), Refusal>
    ensures { refused result ≡ add_refused job.now t.now piece }
{
    of_job(job, t)?;
    if !piece.in_range() {
        return Err(Refusal::BadPiece);
    }
    if job.count == Job::PIECES_MAX {
        return Err(Refusal::FullJob);
    }
    Ok(())
}

pub(crate) fn of_remove(job: &Job, t: &[u32], number: u32) -> Result<(), Refusal>
    ensures { refused result ≡ remove_refused job.now t.now number }
{
    of_job(job, t)?;
    if !(1..=u32::from(job.count)).contains(&number) {
        return Err(Refusal::NotInside);
    }
    Ok(())
}

pub(crate) fn of_correct(job: &Job, t: &[u32], number: u32, piece: Piece) -> Result<(), Refusal>
    ensures { refused result ≡ correct_refused job.now t.now number piece }
{
    of_remove(job, t, number)?;
    if !piece.in_range() {
        return Err(Refusal::BadPiece);
    }
    Ok(())
}

pub(crate) fn of_ask(job: &Job, t: &[u32], x: u32, y: u32) -> Result<(), Refusal>
    ensures { refused result ≡ ask_refused job.now t.now x y }
{
    of_job(job, t)?;
    if !inside(x, y, job.width, job.height) {
        return Err(Refusal::NotInside);
    }
    if cells::has_exceeding(t, usize::from(job.width), x as usize, y as usize) {
        return Err(Refusal::AlienTable);
    }
    Ok(())
}
