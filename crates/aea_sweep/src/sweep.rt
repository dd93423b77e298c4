//! The pass over the blocks of a lattice in number order.

ghost use Rattle.std.specs.Prelude.{◌≡◌, ◌==◌, ◌&&◌, ◌+◌, ◌-◌, ◌^◌, ◌<◌, ◌≤◌, ◌++◌, ℕ, List, suc, Bool, true, false, [], None, OnOk, IfOk, length, get_or};
ghost use Rattle.aea_lattice.specs.declared.blocks.BlockId.{BlockId};
ghost use Rattle.aea_lattice.specs.declared.grid.Lattice.{Lattice};
ghost use Rattle.aea_lattice.specs.Blocks.{HasNode, HasParity, class_number};
ghost use Rattle.aea_lattice.specs.Strands.{strand_of, IsNext};
ghost use Rattle.aea_view.specs.Marked.{is_marked};
ghost use Rattle.aea_sweep.specs.Heads.{has_head, head_in};
ghost use Rattle.aea_sweep.specs.Tables.{SameSize, AddsRow, IsSized, HasPlaces};
ghost use Rattle.aea_sweep.specs.States.{places_of, place_on, is_place_of, IsAt, AreSwept, IsCleanTo, IsReady, AreEndWords};

use crate::heads::Heads;
use crate::table::{add_row, clear, close, exchange, find, forget, spread};
use crate::word::Word;
use crate::word_list::WordList;
use aea_lattice::{BlockId, Class, Lattice};
use aea_view::Marks;
use std::alloc::{AllocError, Global};

// The number of strands of a lattice of three classes.
pub(crate) fn places(lattice: &Lattice) -> u32
    ensures places { result ≡ places_of lattice.now }
    ensures few { result < 192 }
{
    u32::from(lattice.s()) + 2 * u32::from(lattice.p())
}

// The place of the node's strand of the class.
pub(crate) fn place(lattice: &Lattice, node: u32, class: Class) -> u32
    requires node { HasNode lattice.now node }
    requires class { HasParity lattice.now class }
    ensures place { result ≡ place_on lattice.now class (strand_of lattice.now class node) }
    ensures below { result < places_of lattice.now }
    ensures few { result < 192 }
{
    let strand = lattice.strand(node, class);
    match class {
        Class::Datum | Class::Horiz => strand,
        Class::Right => u32::from(lattice.s()) + strand,
        Class::Left => u32::from(lattice.s()) + u32::from(lattice.p()) + strand,
    }
}

// AddsRow to the spare word that of a slot, where both have the head of the slot.
fn clean_one(
    words: &mut Vec<Word>,
    heads: &mut [Heads],
    room: &mut Word,
    spare: usize,
    t: usize,
) -> Result<(), AllocError>
    requires spare { spare < length heads.old }
    requires rows { length heads.old ≤ length words.old.items }
    requires slot { t < spare }
    requires few { spare < 192 }
    ensures { OnOk result (AddsRow t (λ r. (r == spare) && (head_in heads.old t t && head_in heads.old spare t)) words.old.items words.new.items heads.old heads.new) }
{
    if heads[t].has(t as u32) && heads[spare].has(t as u32) {
        add_row(words, heads, room, t, spare)?;
    }
    Ok(())
}

// AddsRow to the spare word each that has the head of its own slot, where the spare word has that head too.
fn clean(
    words: &mut Vec<Word>,
    heads: &mut [Heads],
    room: &mut Word,
    spare: usize,
) -> Result<(), AllocError>
    requires spare { spare + 1 ≡ length heads.old }
    requires rows { length heads.old ≤ length words.old.items }
    requires few { spare < 192 }
    ensures size { OnOk result (SameSize words.old.items words.new.items heads.old heads.new) }
    ensures places { OnOk result (HasPlaces spare heads.old → HasPlaces spare heads.new) }
    ensures clean { OnOk result ((l : Lattice) (known : BlockId → Bool) (closed : List (List ℕ)) (i q : ℕ) (e : BlockId) → spare ≡ places_of l
        → IsCleanTo l known i q e 0 (words.old.items ++ closed) heads.old → IsCleanTo l known i q e spare (words.new.items ++ closed) heads.new) }
{
    for t in 0..spare {
        clean_one(words, heads, room, spare, t)?;
    }
    Ok(())
}

// Puts the spare word into the slot of a place at which it has a head.
fn put_spare(
    words: &mut Vec<Word>,
    heads: &mut [Heads],
    room: &mut Word,
    spare: usize,
    place: u32,
) -> Result<(), AllocError>
    requires sized { IsSized spare words.old.items heads.old }
    requires place { place < spare }
    ensures sized { OnOk result (IsSized spare words.new.items heads.new) }
    ensures put { OnOk result ((l : Lattice) (known : BlockId → Bool) (closed : List (List ℕ)) (i q : ℕ) → spare ≡ places_of l
        → IsReady l known i q place (words.old.items ++ closed) heads.old → AreSwept l known i q (words.new.items ++ closed) heads.new) }
{
    spread(words, heads, room, spare, place)?;
    exchange(words, heads, place as usize, spare);
    Ok(())
}

// Finds a slot for the spare word, or closes it where it has no head.
fn settle(
    words: &mut Vec<Word>,
    closed: &mut WordList,
    heads: &mut [Heads],
    room: &mut Word,
    spare: usize,
) -> Result<(), AllocError>
    requires sized { IsSized spare words.old.items heads.old }
    requires places { HasPlaces spare heads.old }
    ensures sized { OnOk result (IsSized spare words.new.items heads.new) }
    ensures settled { OnOk result ((l : Lattice) (known : BlockId → Bool) (i q : ℕ) (e : BlockId) → spare ≡ places_of l
        → e.node ≡ i → class_number e.class ≡ q
        → IsCleanTo l known i q e 0 (words.old.items ++ closed.old) heads.old → AreSwept l known i q (words.new.items ++ closed.new) heads.new) }
{
    clean(words, heads, room, spare)?;
    match heads[spare].first() {
        None => {
            close(words, closed, spare)?;
            Ok(())
        }
        Some(place) => {
            put_spare(words, heads, room, spare, place)?;
            Ok(())
        }
    }
}

// The heads of the word of the node alone.
fn heads_of(lattice: &Lattice, node: u32) -> Heads
    requires { HasNode lattice.now node }
    ensures { (t : ℕ) → t < 192 → has_head result t ≡ is_place_of lattice.now node t }
{
    let horiz = Heads::none().flipped(place(lattice, node, Class::Horiz));
    if lattice.alpha() < 2 {
        return horiz;
    }
    let right = horiz.flipped(place(lattice, node, Class::Right));
    if lattice.alpha() < 3 {
        return right;
    }
    right.flipped(place(lattice, node, Class::Left))
}

// Goes over the datum of the node.
fn go_over_datum(
    lattice: &Lattice,
    known: &Marks,
    words: &mut Vec<Word>,
    closed: &mut WordList,
    heads: &mut [Heads],
    room: &mut Word,
    spare: usize,
    node: u32,
) -> Result<(), AllocError>
    requires node { HasNode lattice.now node }
    requires same { known.now.lattice ≡ lattice.now }
    requires spare { spare ≡ places_of lattice.now }
    requires sized { IsSized spare words.old.items heads.old }
    requires swept { AreSwept lattice.now (is_marked known.now) (node - 1) lattice.now.alpha (words.old.items ++ closed.old) heads.old }
    ensures sized { OnOk result (IsSized spare words.new.items heads.new) }
    ensures swept { OnOk result (AreSwept lattice.now (is_marked known.now) node 0 (words.new.items ++ closed.new) heads.new) }
{
    let datum = BlockId {
        node,
        class: Class::Datum,
    };
    if known.get(datum) {
        return Ok(());
    }
    words[spare].push(node)?;
    heads[spare] = heads_of(lattice, node);
    settle(words, closed, heads, room, spare)?;
    Ok(())
}

// Goes over a known parity at this place.
fn meet_parity(
    words: &mut Vec<Word>,
    heads: &mut [Heads],
    room: &mut Word,
    spare: usize,
    place: u32,
) -> Result<(), AllocError>
    requires sized { IsSized spare words.old.items heads.old }
    requires place { place < spare }
    ensures sized { OnOk result (IsSized spare words.new.items heads.new) }
    ensures met { OnOk result ((l : Lattice) (known : BlockId → Bool) (closed : List (List ℕ)) (i q : ℕ) (b : BlockId) → spare ≡ places_of l → IsAt l i q place b
        → known b ≡ true → AreSwept l known i q (words.old.items ++ closed) heads.old → AreSwept l known i (suc q) (words.new.items ++ closed) heads.new) }
{
    match find(heads, spare, place) {
        None => Ok(()),
        Some(r) => {
            exchange(words, heads, spare, r);
            spread(words, heads, room, spare, place)?;
            clear(words, heads, spare);
            Ok(())
        }
    }
}

// Goes over a parity that is not known and the last of the strand at this place.
fn end_strand(
    words: &mut Vec<Word>,
    closed: &mut WordList,
    heads: &mut [Heads],
    room: &mut Word,
    spare: usize,
    place: u32,
) -> Result<(), AllocError>
    requires sized { IsSized spare words.old.items heads.old }
    requires places { HasPlaces spare heads.old }
    requires place { place < spare }
    ensures sized { OnOk result (IsSized spare words.new.items heads.new) }
    ensures ended { OnOk result ((l : Lattice) (known : BlockId → Bool) (i q : ℕ) (b : BlockId) → spare ≡ places_of l → IsAt l i q place b
        → known b ≡ false → IsNext l b.class b.node None → AreSwept l known i q (words.old.items ++ closed.old) heads.old
        → AreSwept l known i (suc q) (words.new.items ++ closed.new) heads.new) }
{
    if heads[place as usize].has(place) {
        exchange(words, heads, spare, place as usize);
        forget(heads, place);
        settle(words, closed, heads, room, spare)?;
        return Ok(());
    }
    forget(heads, place);
    Ok(())
}

// Goes over the parity of the node on the class.
fn go_over_parity(
    lattice: &Lattice,
    known: &Marks,
    words: &mut Vec<Word>,
    closed: &mut WordList,
    heads: &mut [Heads],
    room: &mut Word,
    spare: usize,
    node: u32,
    class: Class,
) -> Result<(), AllocError>
    requires node { HasNode lattice.now node }
    requires class { HasParity lattice.now class }
    requires same { known.now.lattice ≡ lattice.now }
    requires spare { spare ≡ places_of lattice.now }
    requires sized { IsSized spare words.old.items heads.old }
    requires swept { AreSwept lattice.now (is_marked known.now) node (class_number class - 1) (words.old.items ++ closed.old) heads.old }
    ensures sized { OnOk result (IsSized spare words.new.items heads.new) }
    ensures swept { OnOk result (AreSwept lattice.now (is_marked known.now) node (class_number class) (words.new.items ++ closed.new) heads.new) }
{
    let at = place(lattice, node, class);
    if known.get(BlockId { node, class }) {
        meet_parity(words, heads, room, spare, at)?;
        return Ok(());
    }
    match lattice.next(node, class) {
        Some(_) => Ok(()),
        None => {
            end_strand(words, closed, heads, room, spare, at)?;
            Ok(())
        }
    }
}

// Goes over the parities of the node.
fn go_over_parities(
    lattice: &Lattice,
    known: &Marks,
    words: &mut Vec<Word>,
    closed: &mut WordList,
    heads: &mut [Heads],
    room: &mut Word,
    spare: usize,
    node: u32,
) -> Result<(), AllocError>
    requires node { HasNode lattice.now node }
    requires same { known.now.lattice ≡ lattice.now }
    requires spare { spare ≡ places_of lattice.now }
    requires sized { IsSized spare words.old.items heads.old }
    requires swept { AreSwept lattice.now (is_marked known.now) node 0 (words.old.items ++ closed.old) heads.old }
    ensures sized { OnOk result (IsSized spare words.new.items heads.new) }
    ensures swept { OnOk result (AreSwept lattice.now (is_marked known.now) node lattice.now.alpha (words.new.items ++ closed.new) heads.new) }
{
    use Class::{Horiz, Left, Right};
    go_over_parity(
        lattice, known, words, closed, heads, room, spare, node, Horiz,
    )?;
    if lattice.alpha() < 2 {
        return Ok(());
    }
    go_over_parity(
        lattice, known, words, closed, heads, room, spare, node, Right,
    )?;
    if lattice.alpha() < 3 {
        return Ok(());
    }
    go_over_parity(
        lattice, known, words, closed, heads, room, spare, node, Left,
    )?;
    Ok(())
}

// Goes over the blocks of the node.
fn go_over(
    lattice: &Lattice,
    known: &Marks,
    words: &mut Vec<Word>,
    closed: &mut WordList,
    heads: &mut [Heads],
    room: &mut Word,
    spare: usize,
    node: u32,
) -> Result<(), AllocError>
    requires node { HasNode lattice.now node }
    requires same { known.now.lattice ≡ lattice.now }
    requires spare { spare ≡ places_of lattice.now }
    requires sized { IsSized spare words.old.items heads.old }
    requires swept { AreSwept lattice.now (is_marked known.now) (node - 1) lattice.now.alpha (words.old.items ++ closed.old) heads.old }
    ensures sized { OnOk result (IsSized spare words.new.items heads.new) }
    ensures swept { OnOk result (AreSwept lattice.now (is_marked known.now) node lattice.now.alpha (words.new.items ++ closed.new) heads.new) }
{
    go_over_datum(lattice, known, words, closed, heads, room, spare, node)?;
    go_over_parities(lattice, known, words, closed, heads, room, spare, node)?;
    Ok(())
}

// So many words without nodes.
fn empty_words(alloc: Global, slots: usize) -> Result<Vec<Word>, AllocError>
    ensures long { IfOk result (λ words. length words.items ≡ slots) }
    ensures empty { IfOk result (λ words. (r : ℕ) → get_or words.items r [] ≡ []) }
{
    let mut words = Vec::with_capacity(alloc, slots)?;
    for _at in 0..slots {
        words.push(Word::new(alloc))?;
    }
    Ok(words)
}

// So many words without heads.
fn empty_heads(alloc: Global, slots: usize) -> Result<Vec<Heads>, AllocError>
    ensures long { IfOk result (λ heads. length heads.items ≡ slots) }
    ensures empty { IfOk result (λ heads. (r t : ℕ) → head_in heads.items r t ≡ false) }
{
    let mut heads = Vec::with_capacity(alloc, slots)?;
    for _at in 0..slots {
        heads.push(Heads::none())?;
    }
    Ok(heads)
}

// The words of the ends.
pub(crate) fn sweep(alloc: Global, lattice: &Lattice, known: &Marks) -> Result<WordList, AllocError>
    requires same { known.now.lattice ≡ lattice.now }
    ensures { IfOk result (λ words. AreEndWords lattice.now (is_marked known.now) words) }
{
    let spare = places(lattice) as usize;
    let most = known.unmarked().min(lattice.n()) as usize;
    let mut words = empty_words(alloc, spare + 1)?;
    let mut closed = WordList::with_capacity(alloc, most)?;
    let mut heads = empty_heads(alloc, spare + 1)?;
    let mut room = Word::new(alloc);
    for k in 0..lattice.n() {
        go_over(
            lattice,
            known,
            &mut words,
            &mut closed,
            heads.as_mut_slice(),
            &mut room,
            spare,
            k + 1,
        )?;
    }
    Ok(closed)
}
