// The row of cells of a sheet. Where a cell lies in the row is known here alone; everyone above says (x, y).
// The row t and its width a stay two parameters: a struct of them would be two structs, since reading lends the row as & and storing as &mut.
// Ranges end in `+ 1` as in fill, where `..=` in the inner loops takes 55 to 96 % more instructions in cold asks.
#![tactic(auto)]

ghost use Rattle.std.specs.Prelude.{ℕ, ◌+◌, ◌*◌, Bool, ◌≤◌, ◌<◌, ◌≡◌, length, set, slice_index};
ghost use Rattle.cutting.specs.Limits.{side_max};
ghost use Rattle.cutting.specs.Piece.{Inside};
ghost use Rattle.cells.specs.Cells.{cell_of, place as place_of};
ghost use Rattle.cells.specs.Inner.{Holds, Answers, asked, any_in_row, any_in_box, exceeds, emptied_where, emptied, row_from};
ghost use Rattle.cells.specs.Box.{is_empty};

use job::Piece;

// A cell that has not been worked out: a number, since C lends and keeps the cells (KHON_EMPTY).
pub const EMPTY: u32 = 4_294_967_295;

// The index of cell (x, y) in the row of a sheet of width a.
fn place(a: usize, x: usize, y: usize) -> usize
    requires in_range { a ≤ side_max }
    requires inside { Inside x y a side_max }
    ensures is { result ≡ place_of a x y }
    ensures below { result < a * y }
{
    (y - 1) * a + (x - 1)
}

// The number in cell (x, y). The row needs to hold no more than the rows up to y.
pub fn cell(t: &[u32], a: usize, x: usize, y: usize) -> u32
    requires holds { Holds a y t.now }
    requires inside { Inside x y a y }
    ensures { result ≡ cell_of a t.now x y }
{
    t[place(a, x, y)]
}

// Puts a number into cell (x, y).
pub fn store(t: &mut [u32], a: usize, x: usize, y: usize, value: u32)
    requires holds { Holds a y t.old }
    requires inside { Inside x y a y }
    ensures { t.new ≡ set t.old (place_of a x y) value }
{
    t[place(a, x, y)] = value;
}

// The numbers of the cells in columns 1 to x of row w.
fn row(t: &[u32], a: usize, x: usize, w: usize) -> &[u32]
    requires holds { Holds a w t.now }
    requires within { x ≤ a }
    ensures long { length result.now ≡ x }
    ensures cells { (k : ℕ) → k < x → slice_index result.now k ≡ cell_of a t.now (k + 1) w }
{
    let first = place(a, 1, w);
    &t[first..first + x]
}

// Empties the cells of a sheet a by b where a size p by q fits. Only those are visited.
pub fn empty_where_fits(t: &mut [u32], a: usize, b: usize, p: usize, q: usize)
    requires holds { Holds a b t.old }
    requires least { (1 ≤ p) × (1 ≤ q) }
    ensures { t.new ≡ emptied a b p q t.old }
{
    for y in q..b + 1 {
        empty_row(t, a, p, y);
    }
}

// Empties row y from column p on. The row is the last one of a sheet a by y.
// Cell by cell: `fill` on that part of the row takes 2.6 to 4.4 % more instructions in add, correct and remove.
fn empty_row(t: &mut [u32], a: usize, p: usize, y: usize)
    requires holds { Holds a y t.old }
    requires least { 1 ≤ p }
    ensures { t.new ≡ emptied_where a y (row_from a p y) t.old }
{
    for x in p..a + 1 {
        store(t, a, x, y, EMPTY);
    }
}

// Is a cell of the box x by y empty?
pub fn has_empty(t: &[u32], a: usize, x: usize, y: usize) -> bool
    requires holds { Holds a y t.now }
    requires within { x ≤ a }
    ensures { result ≡ any_in_box x y (is_empty a t.now) }
{
    box_has(t, a, x, y, |value, _| value == EMPTY)
}

// Does a cell of the box x by y hold more than its area can earn?
pub fn has_exceeding(t: &[u32], a: usize, x: usize, y: usize) -> bool
    requires holds { Holds a y t.now }
    requires within { x ≤ a }
    ensures { result ≡ any_in_box x y (exceeds a t.now) }
{
    box_has(t, a, x, y, |value, most| (value != EMPTY) & (most < value))
}

// Is a cell of row w, in columns 1 to x, empty?
pub fn row_has_empty(t: &[u32], a: usize, x: usize, w: usize) -> bool
    requires holds { Holds a w t.now }
    requires within { x ≤ a }
    ensures { result ≡ any_in_row x w (is_empty a t.now) }
{
    row_has(t, a, x, w, &|value, _| value == EMPTY)
}

// Is there a sought cell in the box x by y? `sought` is asked about a cell's number and the most that it may earn.
fn box_has<F: Fn(u32, u32) -> bool>(t: &[u32], a: usize, x: usize, y: usize, sought: F) -> bool
    requires holds { Holds a y t.now }
    requires within { x ≤ a }
    requires callable { F.IsAlwaysCallable sought }
    ensures { (test : ℕ → ℕ → Bool) → Answers (F.post sought) test → result ≡ any_in_box x y (asked test a t.now) }
{
    (1..y + 1).any(|w| row_has(t, a, x, w, &sought))
}

// The same for columns 1 to x of row w. No exit before the row's end, and numbers of 32 bits: so the loop becomes vectors.
// What a cell may earn runs along, a column's worth at each step; it is at most 3,774,816,000.
fn row_has<F: Fn(u32, u32) -> bool>(t: &[u32], a: usize, x: usize, w: usize, sought: &F) -> bool
    requires holds { Holds a w t.now }
    requires within { x ≤ a }
    requires callable { F.IsAlwaysCallable sought.now }
    ensures { (test : ℕ → ℕ → Bool) → Answers (F.post sought.now) test → result ≡ any_in_row x w (asked test a t.now) }
{
    let column = w as u32 * u32::from(Piece::VALUE_MAX);
    let mut most = 0;
    let mut found = false;
    for value in row(t, a, x, w) {
        most += column;
        found |= sought(*value, most);
    }
    found
}
