// What C links: the calls of `khonvertseg`, exported under the names of include/khonvertseg.h. A row is lent as pointer and length.
#![tactic(auto)]

ghost use Rattle.khonvertseg.specs.Calls.{KhonOpens, KhonAdds, KhonCorrects, KhonRemoves, KhonAsks, KhonPlans, KhonChecks};

use job::{Job, Piece};
use khonvertseg::{KhonAsked, KhonChanged, KhonChecked, KhonPlanned};

#[unsafe(no_mangle)]
pub extern "C" fn khon_open(width: u32, height: u32, cells: &mut [u32]) -> KhonChanged
    ensures { KhonOpens width height cells.old result cells.new }
{
    khonvertseg::khon_open(width, height, cells)
}

#[unsafe(no_mangle)]
pub extern "C" fn khon_add(job: Job, cells: &mut [u32], piece: Piece) -> KhonChanged
    ensures { KhonAdds job cells.old piece result cells.new }
{
    khonvertseg::khon_add(job, cells, piece)
}

#[unsafe(no_mangle)]
pub extern "C" fn khon_correct(
    job: Job,
    cells: &mut [u32],
    number: u32,
    piece: Piece,
) -> KhonChanged
    ensures { KhonCorrects job cells.old number piece result cells.new }
{
    khonvertseg::khon_correct(job, cells, number, piece)
}

#[unsafe(no_mangle)]
pub extern "C" fn khon_remove(job: Job, cells: &mut [u32], number: u32) -> KhonChanged
    ensures { KhonRemoves job cells.old number result cells.new }
{
    khonvertseg::khon_remove(job, cells, number)
}

#[unsafe(no_mangle)]
pub extern "C" fn khon_ask(block: &[u8], cells: &mut [u32], x: u32, y: u32) -> KhonAsked
    ensures { KhonAsks block.now cells.old x y result cells.new }
{
    khonvertseg::khon_ask(block, cells, x, y)
}

#[unsafe(no_mangle)]
pub extern "C" fn khon_plan(
    block: &[u8],
    cells: &[u32],
    x: u32,
    y: u32,
    file: &mut [u8],
) -> KhonPlanned
    ensures { KhonPlans block.now cells.now x y file.old result file.new }
{
    khonvertseg::khon_plan(block, cells, x, y, file)
}

#[unsafe(no_mangle)]
pub extern "C" fn khon_check(file: &[u8]) -> KhonChecked
    ensures { KhonChecks file.now result }
{
    khonvertseg::khon_check(file)
}
