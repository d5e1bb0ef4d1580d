// The points of P and Q as marks, found in one pass from small to large. Widths and heights are one code: it gets the size of a piece.
ghost use Rattle.std.specs.Prelude.{◌≡◌, ℕ, ◌+◌, ◌<◌, ◌≤◌, List, [], ◌∷◌, ◌++◌, length, take};
ghost use Rattle.cutting.specs.Limits.{side_max};
ghost use Rattle.board.specs.declared.TheConstants.{MARKS};
ghost use Rattle.board.specs.Inner.{mark_at, step_at, Gives, no_marks, size_marks, leads, Rising, marks_of};

use crate::{MARKS, Marks};
use job::Piece;
use std::marker::Model;

// The steps that were found, with room for one at each number: a list in fixed memory.
#[derive(Drop)]
struct Steps {
    row: [u16; MARKS],
    held: usize,
}

impl Model for Steps {
    ghost Value = { List ℕ };

    ghost view = { λ s. take s.held s.row };

    ghost invariant = { λ s. s.held ≤ MARKS };
}

impl Steps {
    fn new() -> Steps
        ensures { result ≡ [] }
    {
        Steps {
            row: [0; MARKS],
            held: 0,
        }
    }

    fn push(&mut self, step: u16)
        requires { length self.old < MARKS }
        ensures { self.new ≡ self.old ++ step ∷ [] }
    {
        self.row[self.held] = step;
        self.held += 1;
    }

    fn as_slice(&self) -> &[u16]
        ensures { result.now ≡ self.now }
    {
        &self.row[..self.held]
    }
}

// Marks the sizes themselves: each is a sum of one (rule 3.1). Those above the side are no points, and 0 is none (rule 3.3).
fn mark_sizes<F: Fn(Piece) -> u16>(marks: &mut Marks, pieces: &[Piece], size: F, side: usize)
    requires blank { marks.old ≡ no_marks }
    requires within { side ≤ side_max }
    requires callable { F.IsAlwaysCallable size }
    ensures { (of : ℕ → ℕ) → Gives (F.post size) pieces.now of → marks.new ≡ size_marks of (length pieces.now) side }
{
    for piece in pieces {
        let own = usize::from(size(*piece));
        if 1 <= own && own <= side {
            marks[own] = true;
        }
    }
}

// Whether one of the steps, which rise, leads to `c`: it is at most half of it, and what it leaves is marked.
fn led(marks: &Marks, steps: &[u16], c: usize) -> bool
    requires bound { c ≤ side_max }
    requires rising { Rising (step_at steps.now) (length steps.now) }
    ensures { result ≡ leads (mark_at marks.now) (step_at steps.now) (length steps.now) c }
{
    for step in steps {
        let step = usize::from(*step);
        if c < 2 * step {
            return false;
        }
        if marks[c - step] {
            return true;
        }
    }
    false
}

// Marks each number up to `side` that is a sum of one or more sizes, each as often as one likes (rules 3.1 and 3.2), from small to
// large. A step is a size that no step before it leads to: whatever such a size would lead to, they do.
pub(crate) fn mark<F: Fn(Piece) -> u16>(marks: &mut Marks, pieces: &[Piece], size: F, side: usize)
    requires blank { marks.old ≡ no_marks }
    requires within { side ≤ side_max }
    requires callable { F.IsAlwaysCallable size }
    ensures { (of : ℕ → ℕ) → Gives (F.post size) pieces.now of → marks.new ≡ marks_of of (length pieces.now) side }
{
    mark_sizes(marks, pieces, size, side);
    let mut steps = Steps::new();
    for last in 1..=side {
        if led(marks, steps.as_slice(), last) {
            marks[last] = true;
        } else if marks[last] {
            steps.push(last as u16);
        }
    }
}
