//! The indices of the entries of a catalogue, in an order, cut into pieces.
//!
//! A piece has 1 to 1,024 indices, and memory for 1,024. One more index moves those after it in one piece alone. Where that
//! piece is full, it is cut into two halves, and the pieces after it, 24 bytes each, are moved too; but an index that comes
//! after all others begins a new piece, so that indices that come in order leave each piece full. Each piece but the last
//! has at least 512. So 65,536 indices are in 64 pieces of 4 KiB where they come in order, in some 95 where they come in a
//! random one, and never in more than 128.

ghost use Rattle.std.specs.Prelude.{◌≡◌, ◌↔◌, ◌+◌, ◌<◌, ◌≤◌, ℕ, [], ◌∷◌, ◌++◌, List, false, length, insert, take, drop, vec_len, vec_capacity, slice_get, slice_index_or, slice_set, IsTrue, IfOk, OnOk, All};
ghost use Rattle.aea_catalog.specs.Pieces.{piece_size, half_size, joined, place_in, IsFilled, IsWithin, IsIn, has_space};

use std::alloc::{AllocError, Global};
use std::marker::Model;

// The most indices of a piece, for which it has memory from the start.
const PIECE_SIZE: usize = 1024;

// How many stay in the lower half of a piece that is cut.
const HALF_SIZE: usize = 512;

/// At most 1,024 indices, with memory for as many.
#[derive(Debug, Drop)]
pub(crate) struct Piece {
    indices: Vec<u32>,
}

impl Model for Piece {
    ghost use Rattle.std.specs.Prelude.{List, ℕ, vec_len, vec_capacity};
    ghost use Rattle.aea_catalog.specs.Pieces.{HasPieceSize};

    ghost Value = { List ℕ };

    ghost view = { λ p. p.indices.items };

    ghost invariant = { λ p. HasPieceSize (vec_len p.indices) (vec_capacity p.indices) };
}

impl Piece {
    // A piece of no index.
    fn new(alloc: Global) -> Result<Piece, AllocError>
        ensures { IfOk result (λ piece. piece ≡ []) }
    {
        Ok(Piece {
            indices: Vec::with_capacity(alloc, PIECE_SIZE)?,
        })
    }

    /// Its indices.
    pub(crate) fn indices(&self) -> &[u32]
        ensures { result.now ≡ self.now }
    {
        &self.indices
    }

    // How many indices there are.
    fn len(&self) -> usize
        ensures { result ≡ length self.now }
    {
        self.indices.len()
    }

    // Puts an index at a place.
    fn insert(&mut self, at: usize, index: u32)
        requires at { at ≤ length self.old }
        requires room { length self.old < piece_size }
        ensures { self.new ≡ insert self.old at index }
    {
        let inserted = self.indices.insert(at, index);
        prove!(inserted.is_ok());
    }

    // Moves what is past the lower half into an empty piece.
    fn cut(&mut self, upper: &mut Piece)
        requires full { length self.old ≡ piece_size }
        requires empty { upper.old ≡ [] }
        ensures lower { self.new ≡ take half_size self.old }
        ensures upper { upper.new ≡ drop half_size self.old }
    {
        let moved = upper.indices.extend_from_slice(&self.indices[HALF_SIZE..]);
        prove!(moved.is_ok());
        self.indices.truncate(HALF_SIZE);
    }
}

/// A place in an order: in which piece, and where in it.
#[derive(Clone, Copy, Debug)]
pub(crate) struct Place {
    /// The piece.
    pub(crate) piece: usize,
    /// The place in it.
    pub(crate) at: usize,
}

// Puts an index into a full piece, of which the upper half goes into an empty one.
fn insert_halved(lower: &mut Piece, upper: &mut Piece, at: usize, index: u32)
    requires at { at ≤ length lower.old }
    requires full { length lower.old ≡ piece_size }
    requires empty { upper.old ≡ [] }
    ensures both { lower.new ++ upper.new ≡ insert lower.old at index }
    ensures lower { IsFilled lower.new }
    ensures upper { IsFilled upper.new }
{
    lower.cut(upper);
    if at <= HALF_SIZE {
        lower.insert(at, index);
    } else {
        upper.insert(at - HALF_SIZE, index);
    }
}

// Puts an index into a piece that is not full.
fn insert_into(pieces: &mut Vec<Piece>, place: Place, index: u32)
    requires filled { All IsFilled pieces.old.items }
    requires piece { place.piece < vec_len pieces.old }
    requires at { place.at ≤ length (slice_index_or pieces.old.items place.piece []) }
    requires room { length (slice_index_or pieces.old.items place.piece []) < piece_size }
    ensures filled { All IsFilled pieces.new.items }
    ensures len { vec_len pieces.new ≡ vec_len pieces.old }
    ensures capacity { vec_capacity pieces.new ≡ vec_capacity pieces.old }
    ensures items { joined pieces.new.items ≡ insert (joined pieces.old.items) (place_in pieces.old.items place) index }
{
    let piece = &mut pieces[place.piece];
    piece.insert(place.at, index);
}

// Puts an index into a full piece, of which the upper half goes into an empty one, for which there is space after it.
fn cut_and_insert(pieces: &mut Vec<Piece>, place: Place, spare: Piece, index: u32)
    requires filled { All IsFilled pieces.old.items }
    requires piece { place.piece < vec_len pieces.old }
    requires at { place.at ≤ length (slice_index_or pieces.old.items place.piece []) }
    requires full { length (slice_index_or pieces.old.items place.piece []) ≡ piece_size }
    requires spare { spare ≡ [] }
    requires room { vec_len pieces.old < vec_capacity pieces.old }
    ensures filled { All IsFilled pieces.new.items }
    ensures items { joined pieces.new.items ≡ insert (joined pieces.old.items) (place_in pieces.old.items place) index }
{
    let mut upper = spare;
    let lower = &mut pieces[place.piece];
    insert_halved(lower, &mut upper, place.at, index);
    let inserted = pieces.insert(place.piece + 1, upper);
    prove!(inserted.is_ok());
}

// Begins a piece after all others with an index, for which there is space.
fn begin_piece(pieces: &mut Vec<Piece>, spare: Piece, index: u32)
    requires filled { All IsFilled pieces.old.items }
    requires spare { spare ≡ [] }
    requires room { vec_len pieces.old < vec_capacity pieces.old }
    ensures filled { All IsFilled pieces.new.items }
    ensures items { joined pieces.new.items ≡ joined pieces.old.items ++ index ∷ [] }
{
    let mut last = spare;
    last.insert(0, index);
    pieces.push_reserved(last);
}

// Whether the place is behind all indices.
fn is_at_end(pieces: &[Piece], place: Place) -> bool
    requires { IsWithin pieces.now place }
    ensures end { IsTrue result → place_in pieces.now place ≡ length (joined pieces.now) }
    ensures inner { result ≡ false → place.piece < length pieces.now }
{
    pieces.is_empty() || place.piece + 1 == pieces.len() && place.at == pieces[place.piece].len()
}

// Whether the piece with this number is there and not full.
fn is_open(pieces: &[Piece], piece: usize) -> bool
    ensures { IsTrue result
        ↔ (piece < length pieces.now) × (length (slice_index_or pieces.now piece []) < piece_size) }
{
    piece < pieces.len() && pieces[piece].len() < PIECE_SIZE
}

// Whether there is one piece alone, and it is not full.
fn is_one_open(pieces: &[Piece]) -> bool
    ensures { result ≡ has_space pieces.now }
{
    pieces.len() == 1 && pieces[0].len() < PIECE_SIZE
}

/// Indices in an order, in pieces, none of which is empty.
#[derive(Debug, Drop)]
pub(crate) struct Order {
    pieces: Vec<Piece>,
    // an empty piece for the next one that has to be begun, for which `pieces` then has space
    spare: Option<Piece>,
}

impl Model for Order {
    ghost use Rattle.std.specs.Prelude.{vec_len, vec_capacity};
    ghost use Rattle.aea_catalog.specs.Pieces.{OrderValue, order_code, IsInPieces, order_room};

    ghost Value = { OrderValue };

    ghost coded = { order_code };

    ghost view = { λ o. record { pieces = o.pieces.items; room = order_room o.pieces.items o.spare } };

    ghost invariant = { λ o. IsInPieces o.pieces.items (vec_len o.pieces) (vec_capacity o.pieces) o.spare };
}

impl Order {
    /// An order of no index. It takes no memory.
    pub(crate) fn new(alloc: Global) -> Order
        ensures pieces { result.pieces ≡ [] }
        ensures room { result.room ≡ 0 }
    {
        Order {
            pieces: Vec::new(alloc),
            spare: None,
        }
    }

    /// The pieces, in order.
    pub(crate) fn pieces(&self) -> &[Piece]
        ensures pieces { result.now ≡ self.now.pieces }
        ensures filled { All IsFilled self.now.pieces }
    {
        &self.pieces
    }

    /// The index at this place.
    pub(crate) fn at(&self, place: Place) -> u32
        requires { IsIn self.now.pieces place }
        ensures { result ≡ slice_index_or (joined self.now.pieces) (place_in self.now.pieces place) result }
    {
        self.pieces[place.piece].indices()[place.at]
    }

    /// The index at this place among all. It goes over the pieces.
    pub(crate) fn get(&self, k: usize) -> Option<u32>
        ensures { result ≡ slice_get (joined self.now.pieces) k }
    {
        let mut left = k;
        for piece in &self.pieces {
            let indices = piece.indices();
            if left < indices.len() {
                return Some(indices[left]);
            }
            left -= indices.len();
        }
        None
    }

    /// Makes space for one more index.
    pub(crate) fn reserve(&mut self) -> Result<(), AllocError>
        ensures pieces { self.new.pieces ≡ self.old.pieces }
        ensures ok { OnOk result (1 ≤ self.new.room) }
    {
        if self.spare.is_some() || is_one_open(&self.pieces) {
            return Ok(());
        }
        self.pieces.reserve(1)?;
        let spare = Piece::new(*self.pieces.allocator())?;
        self.spare = Some(spare);
        Ok(())
    }

    /// Puts an index at a place, where there is space for it. It takes no memory.
    pub(crate) fn insert(&mut self, place: Place, index: u32)
        requires place { IsWithin self.old.pieces place }
        requires room { 1 ≤ self.old.room }
        ensures { joined self.new.pieces ≡ insert (joined self.old.pieces) (place_in self.old.pieces place) index }
    {
        if is_open(&self.pieces, place.piece) {
            insert_into(&mut self.pieces, place, index);
            return;
        }
        let Some(spare) = self.spare.take() else {
            unreachable!();
        };
        if is_at_end(&self.pieces, place) {
            begin_piece(&mut self.pieces, spare, index);
        } else {
            cut_and_insert(&mut self.pieces, place, spare, index);
        }
    }
}
