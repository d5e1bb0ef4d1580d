// The job block: width, height, n, then width, height and value of every piece, two bytes each.
ghost use Rattle.std.specs.Prelude.{◌≡◌, ◌+◌, ◌≤◌, ◌++◌, length};
ghost use Rattle.laws.specs.Put.{put};
ghost use Rattle.laws.specs.ByIndex.{by_index};
ghost use Rattle.cutting.specs.Limits.{pieces_max};
ghost use Rattle.job.specs.Job.{record_of, pieces_of};
ghost use Rattle.job.specs.Block.{block_length, piece_from, piece_in, bytes_of_pieces, block};
ghost use Rattle.fields.specs.Format.{head_bytes, piece_bytes};
ghost use Rattle.fields.specs.Number.{bytes2};
ghost use Rattle.job.specs.Inner.{records_of, from_block};

use crate::{Job, Piece, Records};
use fields::Field;
use fields::format::{HEAD_BYTES, PIECE_BYTES, SECOND_NUMBER, THIRD_NUMBER};

// The length of a block of count pieces, which is where the next piece would stand.
pub fn block_length(count: usize) -> usize
    requires { count ≤ 65_535 }
    ensures { result ≡ block_length count }
{
    HEAD_BYTES + count * PIECE_BYTES
}

#[tactic(auto, unfolding(crate::specs::Block::piece_from))]
fn piece_from(s: &[u8], at: usize) -> Piece
    requires { at + piece_bytes ≤ length s.now }
    ensures { result ≡ record_of (piece_from s.now at) }
{
    Piece {
        width: u16::read(s, at),
        height: u16::read(s, at + SECOND_NUMBER),
        value: u16::read(s, at + THIRD_NUMBER),
    }
}

// The records of count pieces, and zeros after.
fn records_in(s: &[u8], count: usize) -> Records
    requires few { count ≤ pieces_max }
    requires room { block_length count ≤ length s.now }
    ensures { result ≡ records_of (by_index (piece_in s.now) count) }
{
    let mut records = [Piece::default(); Job::PIECES_MAX as usize];
    for (k, record) in records[..count].iter_mut().enumerate() {
        *record = piece_from(s, block_length(k));
    }
    records
}

// The job of a block: it is 6 bytes long at least, with n at most 64 and the length 6 + 6n.
pub fn from_block(s: &[u8]) -> Option<Job>
    ensures { result ≡ from_block s.now }
{
    if s.len() < HEAD_BYTES {
        return None;
    }
    let count = u16::read(s, THIRD_NUMBER);
    if Job::PIECES_MAX < count {
        return None;
    }
    if s.len() != block_length(usize::from(count)) {
        return None;
    }
    Some(Job {
        width: u16::read(s, 0),
        height: u16::read(s, SECOND_NUMBER),
        count,
        pieces: records_in(s, usize::from(count)),
    })
}

// Writes three numbers, which the head of a block has, and each piece.
fn put_three(o: &mut [u8], at: usize, first: u16, second: u16, third: u16)
    requires { at + piece_bytes ≤ length o.old }
    ensures { o.new ≡ put o.old at (bytes2 first ++ (bytes2 second ++ bytes2 third)) }
{
    first.put(o, at);
    second.put(o, at + SECOND_NUMBER);
    third.put(o, at + THIRD_NUMBER);
}

// Writes the pieces of a job behind the head of its block.
fn put_pieces(o: &mut [u8], job: &Job)
    requires few { job.now.count ≤ pieces_max }
    requires room { block_length job.now.count ≤ length o.old }
    ensures { o.new ≡ put o.old head_bytes (bytes_of_pieces (pieces_of job.now)) }
{
    for (k, piece) in job.pieces().iter().enumerate() {
        put_three(o, block_length(k), piece.width, piece.height, piece.value);
    }
}

// Writes the block of a job's pieces, for a rectangle of width by height, at the start of o.
pub fn put_block(o: &mut [u8], width: u16, height: u16, job: &Job)
    requires few { job.now.count ≤ pieces_max }
    requires room { block_length job.now.count ≤ length o.old }
    ensures { o.new ≡ put o.old 0 (block width height (pieces_of job.now)) }
{
    put_three(o, 0, width, height, job.count);
    put_pieces(o, job);
}
