//! The table of rows, and how it is reduced while the pass goes over a block.

ghost use Rattle.std.specs.Prelude.{◌≡◌, ◌⊎◌, ◌<◌, ◌==◌, ◌&&◌, not, ℕ, Bool, true, false, MatchOption, length, get_or, slice_set};
ghost use Rattle.aea_sums.specs.declared.row.Row.{Row};
ghost use Rattle.aea_sums.specs.Rows.{row_bit, row_in, no_row, meets, AllMeet, AreSlots, AddsWhere};
ghost use Rattle.aea_sums.specs.Passes.{IsNarrow, Settles, PassesKnown, PassesTagged, PassesEnd, Lacks};

use crate::row::Row;

// Adds the row to each that has the place.
fn add_where(rows: &mut [Row], place: u32, add: &Row)
    requires { place < 192 }
    ensures { AddsWhere place add.now rows.old rows.new }
{
    for r in 0..rows.len() {
        if rows[r].has(place) {
            rows[r] = rows[r].sum(add);
        }
    }
}

// The first row that has the place.
fn find(rows: &[Row], place: u32) -> Option<usize>
    requires { place < 192 }
    ensures { MatchOption result ((r : ℕ) → r < length rows.now → row_in rows.now r place ≡ false)
        (λ r. (r < length rows.now) × (row_in rows.now r place ≡ true)) }
{
    for r in 0..rows.len() {
        if rows[r].has(place) {
            return Some(r);
        }
    }
    None
}

// The row with each row added that is in a slot whose place it has.
fn clean(rows: &[Row], row: &Row) -> Row
    requires slots { AreSlots rows.now }
    requires narrow { IsNarrow rows.now row.now }
    ensures narrow { IsNarrow rows.now result }
    ensures free { (t : ℕ) → t < length rows.now → row_in rows.now t t ≡ true → row_bit result t ≡ false }
    ensures lacks { (t : ℕ) → Lacks rows.now t → row_bit row.now t ≡ false → row_bit result t ≡ false }
    ensures same { (y : ℕ → Bool) → AllMeet rows.now y → meets (row_bit result) y ≡ meets (row_bit row.now) y }
{
    let mut cleaned = *row;
    for t in 0..rows.len() {
        if rows[t].has(t as u32) && cleaned.has(t as u32) {
            cleaned = cleaned.sum(&rows[t]);
        }
    }
    cleaned
}

/// Takes the row up: puts it into the slot of a place that it has, or closes it where it has none; what is lost has its tags then.
pub(crate) fn settle(rows: &mut [Row], lost: u64, row: &Row) -> u64
    requires slots { AreSlots rows.old }
    requires narrow { IsNarrow rows.old row.now }
    ensures long { length rows.new ≡ length rows.old }
    ensures slots { AreSlots rows.new }
    ensures settles { Settles row.now lost result rows.old rows.new }
    ensures lacks { (t : ℕ) → Lacks rows.old t → row_bit row.now t ≡ false → Lacks rows.new t }
{
    let cleaned = clean(rows, row);
    match cleaned.first() {
        None => lost | cleaned.tags,
        Some(place) => {
            add_where(rows, place, &cleaned);
            rows[place as usize] = cleaned;
            lost
        }
    }
}

/// Goes over a known parity: a row that has the place is added to each that has it, itself among them, and returned; a row
/// without bits where none has it.
pub(crate) fn pass_known(rows: &mut [Row], place: u32) -> Row
    requires place { place < 192 }
    requires slots { AreSlots rows.old }
    ensures long { length rows.new ≡ length rows.old }
    ensures slots { AreSlots rows.new }
    ensures passes { PassesKnown place result rows.old rows.new }
    ensures narrow { IsNarrow rows.old result }
    ensures kind { (row_bit result place ≡ true) ⊎ ((t : ℕ) → row_bit result t ≡ false) }
{
    match find(rows, place) {
        None => Row::none(),
        Some(r) => {
            let pivot = rows[r];
            add_where(rows, place, &pivot);
            pivot
        }
    }
}

/// Goes over a parity that is not known: these tags are added to each row that has the place.
pub(crate) fn pass_tag(rows: &mut [Row], place: u32, tags: u64)
    requires place { place < 192 }
    requires slots { AreSlots rows.old }
    ensures long { length rows.new ≡ length rows.old }
    ensures slots { AreSlots rows.new }
    ensures passes { PassesTagged place tags rows.old rows.new }
{
    if tags == 0 {
        return;
    }
    add_where(rows, place, &Row::tagged(tags));
}

// Empties the slot, and gives the row that was there.
fn take_out(rows: &mut [Row], place: u32) -> Row
    requires { place < length rows.old }
    ensures rows { rows.new ≡ slice_set rows.old place no_row }
    ensures row { result ≡ get_or rows.old place no_row }
{
    let row = rows[place as usize];
    rows[place as usize] = Row::none();
    row
}

// The row without the place.
fn lacking(row: &Row, place: u32) -> Row
    requires { place < 192 }
    ensures { (t : ℕ) → t < 256 → row_bit result t ≡ (row_bit row.now t && not (t == place)) }
{
    if row.has(place) {
        row.flipped(place)
    } else {
        *row
    }
}

// Takes the place from all rows.
fn forget(rows: &mut [Row], place: u32)
    requires { place < 192 }
    ensures { (unit : Row) × ((t : ℕ) → t < 256 → row_bit unit t ≡ (t == place)) × AddsWhere place unit rows.old rows.new }
{
    add_where(rows, place, &Row::none().flipped(place));
}

/// Goes over the end of a strand: its place is taken from all rows, and what was in its slot is taken up anew.
pub(crate) fn pass_end(rows: &mut [Row], place: u32, lost: u64) -> u64
    requires place { place < length rows.old }
    requires slots { AreSlots rows.old }
    ensures long { length rows.new ≡ length rows.old }
    ensures slots { AreSlots rows.new }
    ensures passes { PassesEnd place lost result rows.old rows.new }
    ensures gone { Lacks rows.new place }
    ensures lacks { (t : ℕ) → t < 192 → Lacks rows.old t → Lacks rows.new t }
{
    let taken = take_out(rows, place);
    forget(rows, place);
    settle(rows, lost, &lacking(&taken, place))
}
