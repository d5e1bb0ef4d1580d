// The whole sheet: entered, asked, planned and printed.
ghost use Rattle.job.specs.Range.{JobInRange};
ghost use Rattle.program.specs.Inner.{ListsPlan, PrintsPlan, PrintsText};
ghost use Rattle.program.specs.Program.{program_text};

use crate::entry::enter;
use crate::{CELLS, PLAN};
use board::Board;
use desk::question::{self, Answer};
use job::Job;
use job::block::{block_length, from_block};
use listing::Section;
use listing::line::put_head;
use listing::part::list;
use nodes::Nodes;
use printing::Text;
use refusals::Refusal;

// The lines of the sheet's tree, read off the nodes of its plan file.
fn list_for(job: &Job, file: &[u8], text: &mut Text)
    requires { JobInRange job.now }
    ensures { ListsPlan job.now file.now text.old text.new }
{
    let board = Board::of_pieces(job);
    let nodes = Nodes {
        board: &board,
        bytes: file,
    };
    let section = Section {
        at: block_length(usize::from(job.count)),
        level: 1,
        width: usize::from(job.width),
        height: usize::from(job.height),
    };
    // The nodes are plan's own: they break no rule.
    let _ = list(&nodes, section, text);
}

// The first line, and the lines of the tree.
fn print_plan(job: &Job, file: &[u8], answer: Answer, text: &mut Text)
    requires { JobInRange job.now }
    ensures { PrintsPlan job.now file.now answer.value answer.worked text.old text.new }
{
    put_head(text, answer.value as usize, answer.worked as usize);
    list_for(job, file, text);
}

// Prints the plan of a block's whole sheet; where something is refused, nothing.
pub fn print_sheet(block: &[u8], text: &mut Text) -> Result<(), Refusal>
    ensures { PrintsText (program_text block.now) text.old result text.new }
{
    let from = from_block(block).ok_or(Refusal::BadJob)?;
    let mut cells = [0; CELLS];
    let job = enter(&from, &mut cells)?;
    let width = u32::from(job.width);
    let height = u32::from(job.height);
    let answer = question::ask(&job, &mut cells, width, height)?;
    let mut file = [0; PLAN];
    plan::plan(&job, &cells, width, height, &mut file)?;
    print_plan(&job, &file, answer, text);
    Ok(())
}
