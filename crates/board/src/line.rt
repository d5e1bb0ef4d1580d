// What a line leaves. A tall line is a horizontal one: it goes through the height; `tall` is a bool as in `Tree.line` (cutting/specs/Tree).
ghost use Rattle.std.specs.Prelude.{◌≡◌, ◌≤◌};
ghost use Rattle.cutting.specs.Dissection.{rest as rest_of, crossed as crossed_of, part_width, part_height};

// What a line at c leaves of a side beyond it.
pub fn rest(side: usize, c: usize) -> usize
    requires { c ≤ side }
    ensures { result ≡ rest_of side c }
{
    side - c
}

// The side that a line goes through.
pub fn crossed(tall: bool, width: usize, height: usize) -> usize
    ensures { result ≡ crossed_of tall width height }
{
    if tall { height } else { width }
}

// The sides of a part of a line: `part` of the side that it goes through, and all of the other. Two functions, as the definitions have them.
pub fn part_width(tall: bool, width: usize, part: usize) -> usize
    ensures { result ≡ part_width tall width part }
{
    if tall { width } else { part }
}

pub fn part_height(tall: bool, height: usize, part: usize) -> usize
    ensures { result ≡ part_height tall height part }
{
    if tall { part } else { height }
}
