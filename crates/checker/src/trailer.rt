// The trailer of a framed plan file, and the parts that it points back to: the note, the job block and the nodes (rules 8.2 and 8.7).
ghost use Rattle.std.specs.Prelude.{◌≡◌, MatchOption};
ghost use Rattle.job.specs.Range.{JobInRange};
ghost use Rattle.job.specs.Inner.{from_block};
ghost use Rattle.checker.specs.Fields.{trailer_at, block_distance, nodes_distance, stated_value, note_length, block_bytes};
ghost use Rattle.checker.specs.Checked.{Framed};
ghost use Rattle.checker.specs.Inner.{sum_agrees, agreed, nodes_read, leaves_of};

use board::Board;
use fields::format::{
    BLOCK_FIELD, DISTANCE_LEAST, FILE_LEAST, FILE_MOST, NODES_FIELD, SUM_LENGTH, TRAILER_LENGTH,
    VALUE_FIELD,
};
use fields::{Field, sum_of};
use job::Job;
use job::block::from_block;
use nodes::{Nodes, Tally};

// A framed file, where its trailer starts, and what that states: D1, D2 and the value.
#[derive(Clone, Copy)]
pub struct Trailer<'a> {
    file: &'a [u8],
    at: usize,
    d1: usize,
    d2: usize,
    pub value: u32,
    ghost framed: { Framed file.now },
    ghost at_is: { at ≡ trailer_at file.now },
    ghost d1_is: { d1 ≡ block_distance file.now },
    ghost d2_is: { d2 ≡ nodes_distance file.now },
    ghost value_is: { value ≡ stated_value file.now },
}

impl<'a> Trailer<'a> {
    // The trailer of a file, if the file is framed (rule 7.9).
    pub fn of(file: &'a [u8]) -> Option<Self>
        ensures { MatchOption result (Framed file.now → ⊥) (λ trailer. trailer.file.now ≡ file.now) }
    {
        if file.len() < FILE_LEAST || file.len() > FILE_MOST {
            return None;
        }
        let at = file.len() - TRAILER_LENGTH;
        let d1 = u32::read(file, at + BLOCK_FIELD) as usize;
        if d1 < DISTANCE_LEAST || d1 > at {
            return None;
        }
        Some(Trailer {
            file,
            at,
            d1,
            d2: u32::read(file, at + NODES_FIELD) as usize,
            value: u32::read(file, at + VALUE_FIELD),
        })
    }

    // The length of the note, which is where the job block starts.
    pub fn note_length(&self) -> usize
        ensures { result ≡ note_length self.now.file.now }
    {
        self.at - self.d1
    }

    // Is the sum in the trailer the one that is added up (rule 7.10)?
    pub fn sum_agrees(&self) -> bool
        ensures { result ≡ sum_agrees self.now.file.now }
    {
        let start = self.note_length();
        let end = self.file.len() - SUM_LENGTH;
        sum_of(&self.file[start..end]) == u32::read(self.file, end)
    }

    // The job of the bytes between the two places that the trailer points back to, if it is one in range (rule 7.11).
    pub fn job(&self) -> Option<Job>
        ensures { result ≡ agreed (from_block (block_bytes self.now.file.now)) }
    {
        let start = self.note_length();
        let end = start + self.d1.saturating_sub(self.d2);
        from_block(&self.file[start..end]).filter(|job| job.in_range())
    }

    // The leaves of the tree for the whole rectangle, added up, if its nodes obey the rules and end where the trailer starts (rule 7.12).
    pub fn leaves(&self, job: &Job) -> Option<Tally>
        requires { JobInRange job.now }
        ensures { result ≡ leaves_of self.now.file.now (nodes_read self.now.file.now job.now) }
    {
        let board = Board::of_pieces(job);
        let nodes = Nodes {
            board: &board,
            bytes: &self.file[..self.at],
        };
        let start = self.at.saturating_sub(self.d2);
        let reading = nodes.read(start, usize::from(job.width), usize::from(job.height))?;
        if reading.at != self.at {
            return None;
        }
        Some(reading.leaves)
    }
}
