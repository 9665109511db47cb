// Rows of the table: numbers side by side, one for each number of gaps. Each function is one pass that can be vectorised.
// The other row goes by index: over `iter_mut().zip(below)` a proof knows how many numbers are written and none of them.
#![tactic(auto)]

ghost use Rattle.std.specs.Prelude.{◌+◌, ◌≤◌, length};
ghost use Rattle.rows.specs.Rows.{Cleared, Lowered, Moved, Stored};

// No tiling: more than any total. A number and no Option: the table that is lent holds u16 numbers, and `Entry` says what each means.
pub const NO_TILING: u16 = u16::MAX;

// Lowers each number of the row to the one below it.
pub fn lower(row: &mut [u16], below: &[u16])
    requires { length row.old ≤ length below.now }
    ensures { Lowered row.old below.now row.new }
{
    for (q, x) in row.iter_mut().enumerate() {
        *x = (*x).min(below[q]);
    }
}

// No tiling yet.
pub fn clear(row: &mut [u16])
    ensures { Cleared row.new }
{
    row.fill(NO_TILING);
}

// The gap-first totals of a place, by those a letter later and the row there.
// NO_TILING is the greatest number: it is no lesser, and stays.
pub fn gap_row(gaps: &mut [u16], below: &[u16])
    requires { (1 ≤ length gaps.old) × (length gaps.old ≤ length below.now + 1) }
    ensures { Moved gaps.old below.now gaps.new }
{
    for (q, x) in gaps[1..].iter_mut().enumerate() {
        *x = (*x).min(below[q]).saturating_add(1);
    }
}

// The lesser of the two rows.
pub fn store_row(row: &[u16], gaps: &[u16], to: &mut [u16])
    requires { (length to.old ≤ length row.now) × (length to.old ≤ length gaps.now) }
    ensures { Stored row.now gaps.now to.new }
{
    for (q, x) in to.iter_mut().enumerate() {
        *x = row[q].min(gaps[q]);
    }
}
