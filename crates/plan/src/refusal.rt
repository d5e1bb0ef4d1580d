// What plan refuses, row by row: the table and the box, then the file's length.
// Each goal is about what a list of refusals computes.
#![tactic(auto, unfolding(
// the box
crate::specs::Inner::box_refused, crate::specs::Refusals::plan_refusals, crate::specs::Inner::plan_tests,
// the file
crate::specs::Inner::file_number,
// a job
desk::specs::Inner::job_refused, desk::specs::Inner::job_refusals, desk::specs::Inner::job_tests,
// what a list gives
laws::specs::Inner::number_given))]

ghost use Rattle.std.specs.Prelude.{◌≡◌, ◌≤◌, Some};
ghost use Rattle.refusals.specs.Refusals.{refused};
ghost use Rattle.tracer.specs.Inner.{length_most};
ghost use Rattle.plan.specs.Inner.{box_refused, file_number};

use desk::refusal::{inside, of_job};
use fields::format::TRAILER_LENGTH;
use job::Job;
use job::block::block_length;
use refusals::Refusal;

pub fn of_box(job: &Job, t: &[u32], x: u32, y: u32) -> Result<(), Refusal>
    ensures { refused result ≡ box_refused job.now t.now x y }
{
    of_job(job, t)?;
    if !inside(x, y, job.width, job.height) {
        return Err(Refusal::NotInside);
    }
    if cells::has_empty(t, usize::from(job.width), x as usize, y as usize) {
        return Err(Refusal::NotAsked);
    }
    if cells::has_exceeding(t, usize::from(job.width), x as usize, y as usize) {
        return Err(Refusal::AlienTable);
    }
    Ok(())
}

// Has a buffer room for a file with this many pieces and this many bytes of nodes?
pub fn of_room(count: u16, nodes: usize, room: usize) -> Result<(), Refusal>
    requires { nodes ≤ length_most }
    ensures { refused result ≡ file_number count (Some nodes) room }
{
    if room < block_length(usize::from(count)) + nodes + TRAILER_LENGTH {
        return Err(Refusal::ShortBuffer);
    }
    Ok(())
}
