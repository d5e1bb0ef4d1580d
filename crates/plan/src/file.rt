// The parts of a plan file, written one behind the other: the job block, the nodes, the trailer.
ghost use Rattle.std.specs.Prelude.{◌≡◌, ◌++◌, ◌+◌, ◌≤◌, length, take};
ghost use Rattle.laws.specs.Put.{put};
ghost use Rattle.fields.specs.Number.{bytes4};
ghost use Rattle.fields.specs.Sum.{sum_of};
ghost use Rattle.cells.specs.Cells.{cell_of};
ghost use Rattle.board.specs.Inner.{board_of};
ghost use Rattle.laws.specs.Inner.{Wrote};
ghost use Rattle.fields.specs.Format.{sum_field, sum_length, file_most};
ghost use Rattle.plan.specs.Inner.{plan_file, Ready};

use crate::Written;
use fields::format::{NODES_FIELD, SUM_FIELD, SUM_LENGTH, VALUE_FIELD};
use fields::{Field, sum_of};
use job::Job;
use job::block::{block_length, put_block};
use tracer::Wanted;
use tracer::table::Table;
use tracer::walk::write;

// Writes D1, D2 and the value at the trailer's start. The job block starts at 0, so that D1 is that place itself.
fn put_pointers(o: &mut [u8], at: usize, nodes: usize, value: u32)
    requires { (at + sum_field ≤ length o.old) × (at ≤ file_most) × (nodes ≤ at) }
    ensures { o.new ≡ put o.old at (bytes4 at ++ (bytes4 nodes ++ bytes4 value)) }
{
    (at as u32).put(o, at);
    (nodes as u32).put(o, at + NODES_FIELD);
    value.put(o, at + VALUE_FIELD);
}

// Writes the sum of all that stands before it, and answers where the file ends.
fn put_sum(o: &mut [u8], at: usize) -> usize
    requires { at + sum_length ≤ length o.old }
    ensures { Wrote o.old at (bytes4 (sum_of (take at o.old))) result o.new }
{
    let sum = sum_of(&o[..at]);
    sum.put(o, at);
    at + SUM_LENGTH
}

// Writes the file of x by y, and answers its length and the number in its cell.
pub fn write_file(job: &Job, table: &Table, x: u32, y: u32, o: &mut [u8]) -> Written
    requires ready { Ready job.now table.now.cells.now x y o.old }
    requires laid { table.now.board.now ≡ board_of job.now }
    ensures file { Wrote o.old 0 (plan_file job.now table.now.cells.now x y) result.length o.new }
    ensures value { result.value ≡ cell_of job.now.width table.now.cells.now x y }
{
    let value = cells::cell(table.cells, usize::from(job.width), x as usize, y as usize);
    let nodes_at = block_length(usize::from(job.count));
    put_block(o, x as u16, y as u16, job);
    let at = write(table, x as usize, y as usize, Wanted::Free, o, nodes_at);
    put_pointers(o, at, at - nodes_at, value);
    let length = put_sum(o, at + SUM_FIELD) as u32;
    Written { length, value }
}
