// The check of a plan file: refusals 9 to 13 in the order of their numbers, whoever wrote the file.
// trailer.rt: what the trailer says, and the parts that it points back to.
#![tactic(auto)]

ghost use Rattle.checker.specs.Checked.{checked_from};
ghost use Rattle.checker.specs.Inner.{CheckPromise};

use refusals::Refusal;
use trailer::Trailer;

mod trailer;

// What an accepted file is answered with: its value, the length of its note, the area of its pieces and that of its scrap.
#[derive(Clone, Copy, Debug, PartialEq, Eq)]
pub struct Accepted {
    pub value: u32,
    pub note: u32,
    pub piece_area: u32,
    pub scrap_area: u32,
}

// The refusals in their order.
pub fn check(file: &[u8]) -> Result<Accepted, Refusal>
    ensures { CheckPromise file.now (checked_from result) }
{
    let trailer = Trailer::of(file).ok_or(Refusal::NotFramed)?;
    if !trailer.sum_agrees() {
        return Err(Refusal::SumDiffers);
    }
    let job = trailer.job().ok_or(Refusal::JobOutOfRange)?;
    let leaves = trailer.leaves(&job).ok_or(Refusal::NodesBroken)?;
    if leaves.value != trailer.value {
        return Err(Refusal::ValueDiffers);
    }
    Ok(Accepted {
        value: leaves.value,
        note: trailer.note_length() as u32,
        piece_area: leaves.pieces,
        scrap_area: leaves.scrap,
    })
}
