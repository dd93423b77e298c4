//! The catalogue of an archive.

ghost use Rattle.std.specs.Prelude.{◌≡◌, ◌==◌, ◌+◌, ◌-◌, ◌<◌, ◌≤◌, List, ℕ, [], None, All, length, slice_get, slice_index_or, option_map, IfOk, IfErr, IfSome, OnOk, OnErr};
ghost use Rattle.std.specs.FinMap as map;
ghost use Rattle.std.specs.List.{sum_by};
ghost use Rattle.aea_catalog.specs.Names.{IsName};
ghost use Rattle.aea_catalog.specs.Catalogs.{placed_alone, named_object, part_at};
ghost use Rattle.aea_catalog.specs.Pieces.{joined, IsFilled};
ghost use Rattle.aea_catalog.specs.Kept.{IsKept, IsAt, IsPieceFor, IsFoundIn, IsGapIn, HasName, HasGap, listed, name_at, name_cmp};

use crate::objects::{Extent, ObjectRef};
use crate::order::{Order, Piece, Place};
use std::alloc::{AllocError, Global};
use std::cmp::Ordering;
use std::marker::Model;

// An object, its name, and its parts; none where its range is its one part.
#[derive(Debug, Drop)]
struct Entry {
    name: Vec<u8>,
    object: ObjectRef,
    parts: Vec<Extent>,
}

impl Model for Entry {
    ghost use Rattle.std.specs.Prelude.{List, ℕ};
    ghost use Rattle.std.specs.Coded.{coded×, coded_list, coded_ℕ};
    ghost use Rattle.aea_catalog.specs.Kept.{Pair, parts_of};
    ghost use Rattle.aea_catalog.specs.Catalogs.{placed_code};

    ghost Value = { Pair };

    ghost coded = { coded× (coded_list coded_ℕ) placed_code };

    ghost view = { λ e. (e.name.items, record { object = e.object; parts = parts_of e.object e.parts.items }) };
}

impl Entry {
    // How many parts the object has.
    fn parts(&self) -> usize
        ensures { result ≡ length self.now.1.parts }
    {
        if self.parts.is_empty() {
            return if self.object.count == 0 { 0 } else { 1 };
        }
        self.parts.len()
    }

    // The part at a place.
    fn part(&self, k: usize) -> Option<Extent>
        ensures { result ≡ slice_get self.now.1.parts k }
    {
        if !self.parts.is_empty() {
            return self.parts.get(k).copied();
        }
        if self.object.count == 0 || k > 0 {
            return None;
        }
        Some(Extent {
            first: self.object.first,
            count: self.object.count,
        })
    }
}

/// The objects of an archive under their names, in the order of the names' bytes.
///
/// A name is found in logarithmic time. The order is kept in pieces of at most 1,024 objects, and all but the last have at
/// least 512: an insert moves 4 bytes for each object of one piece, and where that is full, 24 bytes for each piece; the
/// object at a place is found by going over the pieces. There are at most 2^32 objects.
#[derive(Debug, Drop)]
pub struct Catalog {
    // in the order in which they came
    entries: Vec<Entry>,
    // the indices of the entries, in the order of the names' bytes
    order: Order,
}

impl Model for Catalog {
    ghost use Rattle.std.specs.Prelude.{vec_len, vec_capacity};
    ghost use Rattle.std.specs.FinMap.{from_sorted};
    ghost use Rattle.aea_catalog.specs.Catalogs.{CatalogValue, catalog_code};
    ghost use Rattle.aea_catalog.specs.Pieces.{joined};
    ghost use Rattle.aea_catalog.specs.Kept.{IsKept, listed, room_of};

    ghost Value = { CatalogValue };

    ghost coded = { catalog_code };

    ghost view = { λ c. record { objects = from_sorted (listed c.entries.items (joined c.order.pieces)); room = room_of (vec_len c.entries) (vec_capacity c.entries) c.order.room } };

    ghost invariant = { λ c. IsKept c.entries.items (joined c.order.pieces) };
}

// How the name of the entry with this index compares with the name.
fn compare_at(entries: &[Entry], index: u32, name: &[u8]) -> Ordering
    requires { index < length entries.now }
    ensures { result ≡ name_cmp (name_at entries.now index) name.now }
{
    let entry = &entries[index as usize];
    entry.name.as_slice().cmp(&name)
}

// The last piece whose first name is not greater than the name, or else the first piece.
fn piece_of(entries: &[Entry], pieces: &[Piece], name: &[u8]) -> usize
    requires kept { IsKept entries.now (joined pieces.now) }
    requires filled { All IsFilled pieces.now }
    ensures { IsPieceFor entries.now pieces.now name.now result }
{
    let mut low = 0;
    let mut high = pieces.len();
    while low + 1 < high {
        let middle = low + (high - low) / 2;
        match compare_at(entries, pieces[middle].indices()[0], name) {
            Ordering::Less => low = middle,
            Ordering::Equal => low = middle,
            Ordering::Greater => high = middle,
        }
    }
    low
}

// Where the name is in its piece, or else where it would go.
fn place_within(
    entries: &[Entry],
    pieces: &[Piece],
    piece: usize,
    name: &[u8],
) -> Result<usize, usize>
    requires kept { IsKept entries.now (joined pieces.now) }
    requires piece { IsPieceFor entries.now pieces.now name.now piece }
    requires within { piece < length pieces.now }
    ensures found { IfOk result (IsFoundIn entries.now pieces.now name.now piece) }
    ensures absent { IfErr result (IsGapIn entries.now pieces.now name.now piece) }
{
    let indices = pieces[piece].indices();
    let mut low = 0;
    let mut high = indices.len();
    while low < high {
        let middle = low + (high - low) / 2;
        match compare_at(entries, indices[middle], name) {
            Ordering::Less => low = middle + 1,
            Ordering::Equal => return Ok(middle),
            Ordering::Greater => high = middle,
        }
    }
    Err(low)
}

// Where the name is among the names in order, or else where it would go.
fn place_of(entries: &[Entry], pieces: &[Piece], name: &[u8]) -> Result<Place, Place>
    requires kept { IsKept entries.now (joined pieces.now) }
    requires filled { All IsFilled pieces.now }
    ensures found { IfOk result (HasName entries.now pieces.now name.now) }
    ensures absent { IfErr result (HasGap entries.now pieces.now name.now) }
{
    let piece = piece_of(entries, pieces, name);
    if pieces.is_empty() {
        return Err(Place { piece, at: 0 });
    }
    match place_within(entries, pieces, piece, name) {
        Ok(at) => Ok(Place { piece, at }),
        Err(at) => Err(Place { piece, at }),
    }
}

impl Catalog {
    /// A catalogue of no object. It takes no memory.
    pub fn new(alloc: Global) -> Catalog
        ensures objects { result.objects ≡ map.empty }
        ensures room { result.room ≡ 0 }
    {
        Catalog {
            entries: Vec::new(alloc),
            order: Order::new(alloc),
        }
    }

    // The entry of the name.
    fn entry_of(&self, name: &[u8]) -> Option<&Entry>
        ensures { option_map (λ e. e.now.1) result ≡ map.get self.now.objects name.now }
    {
        match place_of(&self.entries, self.order.pieces(), name) {
            Ok(place) => {
                let entry = &self.entries[self.order.at(place) as usize];
                Some(entry)
            }
            Err(_) => None,
        }
    }

    /// The object under the name.
    pub fn find(&self, name: &[u8]) -> Option<ObjectRef>
        ensures { result ≡ option_map (λ p. p.object) (map.get self.now.objects name.now) }
    {
        Some(self.entry_of(name)?.object)
    }

    /// How many parts the object under the name has.
    pub fn parts(&self, name: &[u8]) -> Option<usize>
        ensures { result ≡ option_map (λ p. length p.parts) (map.get self.now.objects name.now) }
    {
        Some(self.entry_of(name)?.parts())
    }

    /// The part at this place of the object under the name.
    pub fn part(&self, name: &[u8], k: usize) -> Option<Extent>
        ensures { result ≡ part_at (map.get self.now.objects name.now) k }
    {
        self.entry_of(name)?.part(k)
    }

    /// How many objects there are.
    pub fn len(&self) -> usize
        ensures { result ≡ map.len self.now.objects }
    {
        self.entries.len()
    }

    /// Whether there is no object.
    pub fn is_empty(&self) -> bool
        ensures { result ≡ (map.len self.now.objects == 0) }
    {
        self.entries.is_empty()
    }

    /// The name and the object at this place in the order of the names' bytes.
    pub fn entry(&self, k: usize) -> Option<(&[u8], ObjectRef)>
        ensures entry { option_map (λ e. (e.0.now, e.1)) result ≡ option_map named_object (slice_get (map.entries self.now.objects) k) }
        ensures name { IfSome result (λ e. IsName e.0.now) }
    {
        let index = self.order.get(k)?;
        let entry = &self.entries[index as usize];
        Some((entry.name.as_slice(), entry.object))
    }

    /// Makes space for one more object. It fails also where there are 2^32 objects.
    pub fn reserve(&mut self) -> Result<(), AllocError>
        ensures objects { self.new.objects ≡ self.old.objects }
        ensures ok { OnOk result (1 ≤ self.new.room) }
    {
        if self.entries.len() > u32::MAX as usize {
            return Err(AllocError);
        }
        self.entries.reserve(1)?;
        self.order.reserve()
    }

    /// Puts an object under a name of its own; its nodes are its one part. It fails also where there are 2^32 objects.
    pub fn insert(&mut self, name: &[u8], object: ObjectRef) -> Result<(), AllocError>
        requires name { IsName name.now }
        requires absent { map.get self.old.objects name.now ≡ None }
        ensures ok { OnOk result (self.new.objects ≡ map.insert self.old.objects name.now (placed_alone object)) }
        ensures err { OnErr result (self.new.objects ≡ self.old.objects) }
    {
        let name = Vec::from_slice(*self.entries.allocator(), name)?;
        self.reserve()?;
        self.insert_owned(name, object);
        Ok(())
    }

    /// Puts an object in parts under a name of its own. It fails also where there are 2^32 objects.
    pub fn insert_parts(
        &mut self,
        name: &[u8],
        object: ObjectRef,
        parts: &[Extent],
    ) -> Result<(), AllocError>
        requires name { IsName name.now }
        requires absent { map.get self.old.objects name.now ≡ None }
        requires count { object.count ≡ sum_by (λ e. e.count) parts.now }
        ensures ok { OnOk result (self.new.objects ≡ map.insert self.old.objects name.now (record { object = object; parts = parts.now })) }
        ensures err { OnErr result (self.new.objects ≡ self.old.objects) }
    {
        let name = Vec::from_slice(*self.entries.allocator(), name)?;
        let parts = Vec::from_slice(*self.entries.allocator(), parts)?;
        self.reserve()?;
        self.insert_parts_owned(name, object, parts);
        Ok(())
    }

    /// Puts an object under a name of its own, where there is space for it; its nodes are its one part. It takes no memory.
    pub fn insert_owned(&mut self, name: Vec<u8>, object: ObjectRef)
        requires name { IsName name.items }
        requires absent { map.get self.old.objects name.items ≡ None }
        requires room { 1 ≤ self.old.room }
        ensures objects { self.new.objects ≡ map.insert self.old.objects name.items (placed_alone object) }
    {
        let parts = Vec::new(*self.entries.allocator());
        self.insert_entry(Entry {
            name,
            object,
            parts,
        });
    }

    /// Puts an object in parts under a name of its own, where there is space for it. It takes no memory.
    pub fn insert_parts_owned(&mut self, name: Vec<u8>, object: ObjectRef, parts: Vec<Extent>)
        requires name { IsName name.items }
        requires absent { map.get self.old.objects name.items ≡ None }
        requires count { object.count ≡ sum_by (λ e. e.count) parts.items }
        requires room { 1 ≤ self.old.room }
        ensures objects { self.new.objects ≡ map.insert self.old.objects name.items (record { object = object; parts = parts.items }) }
    {
        self.insert_entry(Entry {
            name,
            object,
            parts,
        });
    }

    // Puts an entry under its name, where there is space for it.
    fn insert_entry(&mut self, entry: Entry)
        requires name { IsName entry.0 }
        requires absent { map.get self.old.objects entry.0 ≡ None }
        requires room { 1 ≤ self.old.room }
        ensures objects { self.new.objects ≡ map.insert self.old.objects entry.0 entry.1 }
    {
        let Err(place) = place_of(&self.entries, self.order.pieces(), &entry.name) else {
            unreachable!();
        };
        let index = self.entries.len() as u32;
        self.entries.push_reserved(entry);
        self.order.insert(place, index);
    }
}
