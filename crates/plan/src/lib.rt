// The call plan: the file of the tree for a rectangle, written into a lent buffer. It has no `requires`.
// refusal.rt: the list of refusals; file.rt: the file's parts.
#![tactic(auto)]

ghost use Rattle.std.specs.Prelude.{◌≡◌};
ghost use Rattle.plan.specs.Planning.{planned_from};
ghost use Rattle.plan.specs.Inner.{PlanPromise};

use board::Board;
use job::Job;
use refusals::Refusal;
use tracer::Wanted;
use tracer::table::Table;
use tracer::walk::measure;

mod file;
mod refusal;

// What a written plan is answered with: its file's length, and its value.
#[derive(Clone, Copy, Debug, PartialEq, Eq)]
pub struct Written {
    pub length: u32,
    pub value: u32,
}

// Reads the table and writes the plan file of x by y at the start of o.
pub fn plan(job: &Job, t: &[u32], x: u32, y: u32, o: &mut [u8]) -> Result<Written, Refusal>
    ensures { PlanPromise job.now t.now x y o.old (planned_from result) o.new }
{
    refusal::of_box(job, t, x, y)?;
    let mut board = Board::of_pieces(job);
    board.set_points();
    let table = Table {
        board: &board,
        cells: t,
    };
    let nodes = measure(&table, x as usize, y as usize, Wanted::Free).ok_or(Refusal::AlienTable)?;
    refusal::of_room(job.count, nodes, o.len())?;
    Ok(file::write_file(job, &table, x, y, o))
}
