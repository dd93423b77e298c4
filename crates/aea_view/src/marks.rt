ghost use Rattle.std.specs.Prelude.{◌≡◌, ℕ, ◌<◌, ◌*◌, ◌+◌, Bool, false, replicate, slice_set, IfOk, IfSome, IfNone, MatchOption, true, not, map};
ghost use Rattle.std.specs.Option.{ForSome};
ghost use Rattle.aea_lattice.specs.Blocks.{HasBlock, blocks_count, number_of};
ghost use Rattle.aea_lattice.specs.Closure.{IsForcedBy};
ghost use Rattle.aea_lattice.specs.Equations.{HasEquation};
ghost use Rattle.aea_view.specs.Marked.{IsWhole, is_marked, unmarked, IsSpent, AreClear, IsNextMarked};

use crate::words::{all_flipped, bit, count_clear, next_set, with_bit};
use aea_lattice::{BlockId, EqId, Lattice};
use std::alloc::{AllocError, Global};
use std::marker::Model;

/// A truth value for each block of a lattice, in number order, one bit each.
#[derive(Drop)]
pub struct Marks {
    lattice: Lattice,
    // the mark of block number k is bit k mod 64 of word k div 64
    words: Vec<u64>,
}

impl Model for Marks {
    ghost use Rattle.std.specs.Prelude.{◌≡◌, length};
    ghost use Rattle.aea_lattice.specs.Blocks.{blocks_count};
    ghost use Rattle.aea_view.specs.Bits.{words_for, bits_of};
    ghost use Rattle.aea_view.specs.Marked.{Marked, marked_code};

    ghost Value = { Marked };

    ghost coded = { marked_code };

    ghost view = { λ m. record { lattice = m.lattice; marks = bits_of (blocks_count m.lattice) m.words.items } };

    ghost invariant = { λ m. length m.words.items ≡ words_for (blocks_count m.lattice) };
}

impl Marks {
    /// Marks of a lattice, all false. They keep a bit of memory a block.
    pub fn new(alloc: Global, lattice: &Lattice) -> Result<Marks, AllocError>
        ensures lattice { IfOk result (λ m. m.lattice ≡ lattice.now) }
        ensures marks { IfOk result (λ m. m.marks ≡ replicate (blocks_count lattice.now) false) }
        ensures whole { IfOk result IsWhole }
    {
        let count = lattice.blocks().div_ceil(64);
        let words = vec![in alloc; 0; count as usize]?;
        Ok(Marks {
            lattice: *lattice,
            words,
        })
    }

    /// The lattice whose blocks are marked.
    pub fn lattice(&self) -> &Lattice
        ensures lattice { result.now ≡ self.now.lattice }
        ensures whole { IsWhole self.now }
    {
        &self.lattice
    }

    /// Gives the block this mark.
    pub fn set(&mut self, b: BlockId, value: bool)
        requires { HasBlock self.old.lattice b }
        ensures lattice { self.new.lattice ≡ self.old.lattice }
        ensures whole { IsWhole self.new }
        ensures marks { self.new.marks ≡ slice_set self.old.marks (number_of self.old.lattice b) value }
    {
        let k = self.lattice.number(b);
        let word = &mut self.words[(k / 64) as usize];
        *word = with_bit(*word, k % 64, value);
    }

    /// The mark of the block.
    pub fn get(&self, b: BlockId) -> bool
        requires { HasBlock self.now.lattice b }
        ensures { result ≡ is_marked self.now b }
    {
        let k = self.lattice.number(b);
        bit(self.words[(k / 64) as usize], k % 64)
    }

    /// The number of blocks that are not marked.
    pub fn unmarked(&self) -> u32
        ensures { result ≡ unmarked self.now }
    {
        count_clear(self.words.as_slice(), self.lattice.blocks())
    }

    /// Marks of the same lattice at the blocks that have none here. They keep a bit of memory a block.
    pub fn complement(&self, alloc: Global) -> Result<Marks, AllocError>
        ensures lattice { IfOk result (λ m. m.lattice ≡ self.now.lattice) }
        ensures marks { IfOk result (λ m. m.marks ≡ map not self.now.marks) }
        ensures whole { IfOk result IsWhole }
    {
        let words = all_flipped(alloc, self.words.as_slice())?;
        Ok(Marks {
            lattice: self.lattice,
            words,
        })
    }

    /// The number of the first marked block of this number or a later one, None where there is none.
    pub fn next_marked(&self, from: u32) -> Option<u32>
        ensures found { IfSome result (IsNextMarked self.now from) }
        ensures none { IfNone result (AreClear self.now from (blocks_count self.now.lattice)) }
    {
        next_set(self.words.as_slice(), self.lattice.blocks(), from)
    }

    // Whether the input of an equation is marked, true where there is none.
    fn has_input(&self, input: Option<BlockId>) -> bool
        requires { ForSome input (HasBlock self.now.lattice) }
        ensures { MatchOption input (result ≡ true) (λ g. result ≡ is_marked self.now g) }
    {
        match input {
            None => true,
            Some(g) => self.get(g),
        }
    }

    /// The block of the equation that is not marked, where it is the only one: the equation then forces it.
    pub fn single_unmarked(&self, e: EqId) -> Option<BlockId>
        requires { HasEquation self.now.lattice e }
        ensures forced { IfSome result (λ b. IsForcedBy self.now.lattice (is_marked self.now) b e) }
        ensures no_mark { IfSome result (λ b. is_marked self.now b ≡ false) }
        ensures inside { IfSome result (HasBlock self.now.lattice) }
        ensures spent { IfNone result (IsSpent self.now e) }
    {
        let blocks = self.lattice.equation(e);
        let input = self.has_input(blocks.input);
        let datum = self.get(blocks.datum);
        let output = self.get(blocks.output);
        match (input, datum, output) {
            (true, true, false) => Some(blocks.output),
            (true, false, true) => Some(blocks.datum),
            (false, true, true) => blocks.input,
            _ => None,
        }
    }
}
