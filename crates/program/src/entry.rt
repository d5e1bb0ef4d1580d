// The job of a block, opened anew and its pieces added one by one.
ghost use Rattle.std.specs.Prelude.{◌≡◌, ◌≤◌};
ghost use Rattle.cutting.specs.Limits.{pieces_max};
ghost use Rattle.program.specs.Entry.{entered};
ghost use Rattle.program.specs.Inner.{AnswersAs};

use desk::change;
use job::Job;
use refusals::Refusal;

// Opens a job with the sides of another and adds the pieces of that.
pub fn enter(from: &Job, cells: &mut [u32]) -> Result<Job, Refusal>
    requires { from.now.count ≤ pieces_max }
    ensures answer { AnswersAs result (entered from.now cells.old).answer }
    ensures cells_after { cells.new ≡ (entered from.now cells.old).cells }
{
    let mut job = change::open(u32::from(from.width), u32::from(from.height), cells)?;
    for piece in from.pieces() {
        job = change::add(job, cells, *piece)?;
    }
    Ok(job)
}
