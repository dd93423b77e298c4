ghost use Rattle.std.specs.Prelude.{◌≡◌, ℕ, ◌<◌, ◌++◌, ◌∷◌, [], ◌==◌, length, get_or, slice_set, replicate, IfOk, OnOk};
ghost use Rattle.aea_gauss.specs.Parts.{items_at};

use std::alloc::{AllocError, Global};
use std::marker::Model;

/// Items in order, of which a slice can be had.
#[derive(Debug, Drop)]
pub struct Bucket<T: Drop> {
    items: Vec<T>,
}

impl<T: Drop> Model for Bucket<T> {
    ghost use Rattle.std.specs.Prelude.{List};

    ghost Value = { List T };

    ghost view = { λ b. b.items.items };
}

impl<T: Copy> Bucket<T> {
    /// The empty bucket. It keeps its allocator.
    pub fn new(alloc: Global) -> Bucket<T>
        ensures { result ≡ [] }
    {
        Bucket {
            items: Vec::new(alloc),
        }
    }

    /// The items.
    pub fn as_slice(&self) -> &[T]
        ensures { result.now ≡ self.now }
    {
        self.items.as_slice()
    }

    /// Puts the item last.
    pub fn push(&mut self, item: T) -> Result<(), AllocError>
        ensures { OnOk result (self.new ≡ self.old ++ item ∷ []) }
    {
        self.items.push(item)?;
        Ok(())
    }
}

// So many empty buckets.
fn empty_buckets<T: Copy>(alloc: Global, count: usize) -> Result<Vec<Bucket<T>>, AllocError>
    ensures { IfOk result (λ buckets. buckets.items ≡ replicate count []) }
{
    let mut buckets = Vec::new(alloc);
    for _at in 0..count {
        buckets.push(Bucket::new(alloc))?;
    }
    Ok(buckets)
}

// Puts the item last in the bucket of its label.
fn put_in<T: Copy>(buckets: &mut [Bucket<T>], label: usize, item: T) -> Result<(), AllocError>
    requires { label < length buckets.old }
    ensures { OnOk result (buckets.new ≡ slice_set buckets.old label (get_or buckets.old label [] ++ item ∷ [])) }
{
    buckets[label].push(item)?;
    Ok(())
}

// The items by their labels, a bucket for each, in their order.
fn fill_buckets<T: Copy>(
    buckets: &mut [Bucket<T>],
    items: &[T],
    labels: &[u32],
) -> Result<(), AllocError>
    requires long { length labels.now ≡ length items.now }
    requires below { (k : ℕ) → k < length labels.now → get_or labels.now k 0 < length buckets.old }
    requires empty { (c : ℕ) → get_or buckets.old c [] ≡ [] }
    ensures long { OnOk result (length buckets.new ≡ length buckets.old) }
    ensures each { OnOk result ((c : ℕ) → c < length buckets.old
        → get_or buckets.new c [] ≡ items_at (λ k. get_or labels.now k 0 == c) items.now) }
{
    for k in 0..items.len() {
        put_in(buckets, labels[k] as usize, items[k])?;
    }
    Ok(())
}

// The items by their labels: so many buckets, each with the items of its label in their order.
pub(crate) fn by_label<T: Copy>(
    alloc: Global,
    items: &[T],
    labels: &[u32],
    count: usize,
) -> Result<Vec<Bucket<T>>, AllocError>
    requires long { length labels.now ≡ length items.now }
    requires below { (k : ℕ) → k < length labels.now → get_or labels.now k 0 < count }
    ensures long { IfOk result (λ buckets. length buckets.items ≡ count) }
    ensures each { IfOk result (λ buckets. (c : ℕ) → c < count
        → get_or buckets.items c [] ≡ items_at (λ k. get_or labels.now k 0 == c) items.now) }
{
    let mut buckets = empty_buckets(alloc, count)?;
    fill_buckets(buckets.as_mut_slice(), items, labels)?;
    Ok(buckets)
}

// The items of a label.
pub(crate) fn bucket_at<T: Copy>(buckets: &[Bucket<T>], label: usize) -> &[T]
    requires { label < length buckets.now }
    ensures { result.now ≡ get_or buckets.now label [] }
{
    buckets[label].as_slice()
}

/// Whether one of the buckets has more items than `most`.
pub(crate) fn has_more_than<T: Copy>(buckets: &[Bucket<T>], most: usize) -> bool {
    for bucket in buckets {
        if bucket.as_slice().len() > most {
            return true;
        }
    }
    false
}
