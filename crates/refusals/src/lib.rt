// What a call can refuse, and the number that it gives then.
#![tactic(auto)]

ghost use Rattle.std.specs.Prelude.{◌≡◌};
ghost use Rattle.refusals.specs.Refusals.{number};

// A refusal, as the number that the header has for it. When each call gives which is said in the specs of the crate of that call.
#[derive(Clone, Copy, Debug, PartialEq, Eq, Hash)]
pub enum Refusal {
    // Rule 7.1: the job is out of its ranges, or the bytes are no job block.
    BadJob = 1,
    // Rule 7.2: the table has fewer cells than the sheet.
    ShortTable = 2,
    // Rule 7.3: no piece has the number, or the rectangle doesn't lie inside the sheet.
    NotInside = 3,
    // Rule 7.4: the new piece is out of its ranges.
    BadPiece = 4,
    // Rule 7.5: the job has as many pieces as it can hold.
    FullJob = 5,
    // Rule 7.6: the box has an empty cell.
    NotAsked = 6,
    // Rule 7.7: a filled cell of the box holds more than its area may earn, or there is no tree.
    AlienTable = 7,
    // Rule 7.8: the file is longer than the buffer.
    ShortBuffer = 8,
    // Rule 7.9: the file's length or D1 is out of its range.
    NotFramed = 9,
    // Rule 7.10: the sum is another one.
    SumDiffers = 10,
    // Rule 7.11: the job block is out of its ranges, or hasn't the length from D1 to D2.
    JobOutOfRange = 11,
    // Rule 7.12: the nodes aren't those of a dissection.
    NodesBroken = 12,
    // Rule 7.13: the leaves earn another value than the trailer says.
    ValueDiffers = 13,
}

impl From<Refusal> for u32 {
    ghost from_gives = { λ refusal n. n ≡ number refusal };

    fn from(refusal: Refusal) -> u32 {
        refusal as u32
    }
}
