// The program's work: a job block in, the listing of its sheet's plan out, or the line of a refusal.
// entry.rt: the block's pieces, added one by one; whole.rt: the sheet asked, planned and printed.
#![tactic(auto)]

ghost use Rattle.program.specs.Promise.{ProgramPromise};

use listing::line::put_refused;
use printing::Text;

mod entry;
mod whole;

// The sizes of the table and of the plan buffer.
const CELLS: usize = 16_384;

const PLAN: usize = 32_768;

// The size of the text buffer, in which every text has room.
pub const TEXT: usize = 414_805;

// Writes the text at the start of a lent row, and answers its length.
pub fn run(block: &[u8], text: &mut [u8; TEXT]) -> usize
    ensures { ProgramPromise block.now text.old result text.new }
{
    let mut out = Text::new(text);
    if let Err(refusal) = whole::print_sheet(block, &mut out) {
        put_refused(&mut out, u32::from(refusal) as usize);
    }
    out.at
}
