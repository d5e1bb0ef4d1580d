// The tree for a rectangle by the tree rules.
// table.rt: what it is read from; search.rt: the first piece and the least line; next.rt: the next step in a part;
// walk.rt: the length of the nodes, and the nodes.
#![tactic(auto)]

ghost use Rattle.std.specs.Prelude.{◌≡◌};

mod next;
mod search;
pub mod table;
pub mod walk;

// What is wanted of a part: whatever the rules say, the piece with this number cut out of it, or nothing.
#[derive(Clone, Copy, Debug, PartialEq, Eq)]
pub enum Wanted {
    Free,
    Piece(u16),
    Waste,
}

// The next step in a part. A line has its place, what is wanted of its near part, and its direction (true for a horizontal one).
#[derive(Clone, Copy, Debug, PartialEq, Eq)]
pub enum Step {
    Scrap,
    Piece(u16),
    Line(u16, Wanted, bool),
}

impl Wanted {
    ghost use Rattle.tracer.specs.Inner.{beyond as beyond_of};

    // What is wanted of a line's far part, where this is wanted of its near one.
    fn beyond(self) -> Wanted
        ensures { result ≡ beyond_of self }
    {
        match self {
            Wanted::Free => Wanted::Free,
            _ => Wanted::Waste,
        }
    }
}
