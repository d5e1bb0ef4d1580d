// Open, add, correct, remove: each answers the job after the change, and empties exactly the cells that the change can touch.
ghost use Rattle.std.specs.Prelude.{◌≡◌, ◌≤◌};
ghost use Rattle.job.specs.Job.{zero_job};
ghost use Rattle.desk.specs.Changing.{record_of_piece};
ghost use Rattle.desk.specs.Inner.{emptied_size, changed_from, OpenPromise, AddPromise, CorrectPromise, RemovePromise};
ghost use Rattle.cutting.specs.Limits.{pieces_max};
ghost use Rattle.desk.specs.Refusals.{Usable, IsNumber};

use crate::refusal;
use job::{Job, Piece};
use refusals::Refusal;

// The record of piece `number`.
#[tactic(auto, unfolding(crate::specs::Changing::record_of_piece))]
fn piece_of(job: &Job, number: u32) -> Piece
    requires few { job.now.count ≤ pieces_max }
    requires number { IsNumber job.now number }
    ensures { result ≡ record_of_piece job.now number }
{
    job.pieces[number as usize - 1]
}

// Empties the cells of the job's sheet where a size fits.
#[tactic(auto, unfolding(crate::specs::Inner::emptied_size))]
fn empty_size(job: &Job, t: &mut [u32], size: Piece)
    requires usable { Usable job.now t.old }
    requires least { (1 ≤ size.width) × (1 ≤ size.height) }
    ensures { t.new ≡ emptied_size job.now size t.old }
{
    cells::empty_where_fits(
        t,
        usize::from(job.width),
        usize::from(job.height),
        usize::from(size.width),
        usize::from(size.height),
    );
}

// Empties the cells of the sheet width by height and answers a job with no pieces.
#[tactic(auto, using(crate::proofs::Granted::open_granted))]
pub fn open(width: u32, height: u32, t: &mut [u32]) -> Result<Job, Refusal>
    ensures { OpenPromise width height t.old (changed_from zero_job result) t.new }
{
    refusal::of_open(width, height, t)?;
    let fresh = Job::new(width as u16, height as u16);
    cells::empty_where_fits(t, width as usize, height as usize, 1, 1);
    Ok(fresh)
}

// Adds a piece behind the others.
#[tactic(auto, using(crate::proofs::Granted::add_granted))]
pub fn add(job: Job, t: &mut [u32], piece: Piece) -> Result<Job, Refusal>
    ensures { AddPromise job t.old piece (changed_from job result) t.new }
{
    refusal::of_add(&job, t, piece)?;
    let after = job.with_added(piece);
    empty_size(&job, t, piece);
    Ok(after)
}

// Puts another record in the place of piece `number`. What the old size or the new one could touch is forgotten.
#[tactic(auto, using(crate::proofs::Granted::correct_granted, crate::proofs::Granted::record_in))]
pub fn correct(job: Job, t: &mut [u32], number: u32, piece: Piece) -> Result<Job, Refusal>
    ensures { CorrectPromise job t.old number piece (changed_from job result) t.new }
{
    refusal::of_correct(&job, t, number, piece)?;
    empty_size(&job, t, piece_of(&job, number));
    empty_size(&job, t, piece);
    Ok(job.with_corrected(number, piece))
}

// Takes piece `number` out; each one after it gets a number one less.
#[tactic(auto, using(crate::proofs::Granted::remove_granted, crate::proofs::Granted::record_in))]
pub fn remove(job: Job, t: &mut [u32], number: u32) -> Result<Job, Refusal>
    ensures { RemovePromise job t.old number (changed_from job result) t.new }
{
    refusal::of_remove(&job, t, number)?;
    empty_size(&job, t, piece_of(&job, number));
    Ok(job.with_removed(number))
}
