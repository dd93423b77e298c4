//! The words that are open, in a slot for each strand and a spare one after them, and their heads. Closed words are in a list
//! of their own, and count as the rows after these.

ghost use Rattle.std.specs.Prelude.{◌≡◌, ◌≢◌, ◌==◌, ◌&&◌, ◌++◌, ◌<◌, ◌≤◌, ℕ, false, true, nat_lt, OnOk, MatchOption, length};
ghost use Rattle.aea_sweep.specs.Heads.{head_in};
ghost use Rattle.aea_sweep.specs.Tables.{AddsRow, Exchanges, Clears, Forgets, Closes};

use crate::heads::Heads;
use crate::word::{Word, add_lists};
use crate::word_list::WordList;
use std::alloc::AllocError;
use std::mem::swap;

// AddsRow the word of one row to that of another.
pub(crate) fn add_row(
    words: &mut Vec<Word>,
    heads: &mut [Heads],
    room: &mut Word,
    from: usize,
    into: usize,
) -> Result<(), AllocError>
    requires from { from < length heads.old }
    requires into { into < length heads.old }
    requires rows { length heads.old ≤ length words.old.items }
    ensures { OnOk result (AddsRow from (λ r. r == into) words.old.items words.new.items heads.old heads.new) }
{
    add_lists(words[into].as_slice(), words[from].as_slice(), room)?;
    swap(&mut words[into], room);
    heads[into] = heads[into].sum(&heads[from]);
    Ok(())
}

// AddsRow the spare word to each slot's that has a head at the place.
pub(crate) fn spread(
    words: &mut Vec<Word>,
    heads: &mut [Heads],
    room: &mut Word,
    spare: usize,
    place: u32,
) -> Result<(), AllocError>
    requires spare { spare < length heads.old }
    requires rows { length heads.old ≤ length words.old.items }
    requires place { place < 192 }
    ensures { OnOk result (AddsRow spare (λ r. nat_lt r spare && head_in heads.old r place) words.old.items words.new.items heads.old heads.new) }
{
    for r in 0..spare {
        if heads[r].has(place) {
            add_row(words, heads, room, spare, r)?;
        }
    }
    Ok(())
}

// The first slot whose word has a head at the place.
pub(crate) fn find(heads: &[Heads], spare: usize, place: u32) -> Option<usize>
    requires spare { spare ≤ length heads.now }
    requires place { place < 192 }
    ensures { MatchOption result ((r : ℕ) → r < spare → head_in heads.now r place ≡ false)
        (λ r. (r < spare) × (head_in heads.now r place ≡ true)) }
{
    for r in 0..spare {
        if heads[r].has(place) {
            return Some(r);
        }
    }
    None
}

// Takes the heads at the place away.
pub(crate) fn forget(heads: &mut [Heads], place: u32)
    requires { place < 192 }
    ensures { Forgets place heads.old heads.new }
{
    for r in 0..heads.len() {
        heads[r] = heads[r].without(place);
    }
}

// Exchanges the words of two rows.
pub(crate) fn exchange(words: &mut Vec<Word>, heads: &mut [Heads], a: usize, b: usize)
    requires a { a < length heads.old }
    requires b { b < length heads.old }
    requires rows { length heads.old ≤ length words.old.items }
    ensures { Exchanges a b words.old.items words.new.items heads.old heads.new }
{
    words.swap(a, b);
    heads.swap(a, b);
}

// Takes the nodes and heads of a row away.
pub(crate) fn clear(words: &mut Vec<Word>, heads: &mut [Heads], row: usize)
    requires row { row < length heads.old }
    requires rows { length heads.old ≤ length words.old.items }
    ensures { Clears row words.old.items words.new.items heads.old heads.new }
{
    words[row].clear();
    heads[row] = Heads::none();
}

// Puts the row's word after the closed ones, and takes its nodes away.
pub(crate) fn close(
    words: &mut Vec<Word>,
    closed: &mut WordList,
    row: usize,
) -> Result<(), AllocError>
    requires { row < length words.old.items }
    ensures long { OnOk result (length words.new.items ≡ length words.old.items) }
    ensures closes { OnOk result (Closes row (words.old.items ++ closed.old) (words.new.items ++ closed.new)) }
{
    closed.push(words[row].as_slice())?;
    words[row].clear();
    Ok(())
}
