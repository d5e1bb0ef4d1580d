// The program: a job block on standard input, the listing on standard output. Its work is `program::run`.
#![tactic(auto)]

ghost use Rattle.std.specs.Prelude.{◌≤◌, length, IfOk};

use program::TEXT;
use std::io;
use std::io::{Read, Write};

// One byte more than the longest block has; what comes after it changes nothing (`input_enough` of `program`).
const INPUT: usize = 391;

fn main(rt: HostRuntime) -> io::Result<()> {
    let mut input = [0; INPUT];
    let mut text = [0; TEXT];
    let n = read_full(&mut rt.stdin(), &mut input)?;
    let length = program::run(&input[..n], &mut text);
    rt.stdout().write_all(&text[..length])
}

// Reads until the row is full or the input ends, and answers how many bytes stand at its start. Kept: `read_exact` refuses a short
// input, `read_to_end` takes a heap.
fn read_full(from: &mut impl Read, row: &mut [u8]) -> io::Result<usize>
    ensures { IfOk result (λ n. n ≤ length row.new) }
{
    let mut done = 0;
    while done < row.len() {
        let n = from.read(&mut row[done..])?;
        if n == 0 {
            break;
        }
        done += n;
    }
    Ok(done)
}
