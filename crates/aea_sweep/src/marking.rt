//! The first word of each block.

ghost use Rattle.std.specs.Prelude.{◌≡◌, ◌≢◌, ◌==◌, ◌&&◌, ◌||◌, ◌+◌, ◌<◌, ◌≤◌, ◌^◌, ℕ, List, [], ◌∷◌, Bool, true, cond, length, get_or, IfOk};
ghost use Rattle.aea_lattice.specs.declared.blocks.BlockId.{BlockId};
ghost use Rattle.aea_lattice.specs.declared.blocks.Class.TheVariants.{Datum};
ghost use Rattle.aea_lattice.specs.Blocks.{HasNode, HasParity, HasBlock, class_number, blocks_count};
ghost use Rattle.aea_lattice.specs.Fences.{is_parted};
ghost use Rattle.aea_lattice.specs.Strands.{strand_of};
ghost use Rattle.aea_lattice.specs.Ends.{strands_of};
ghost use Rattle.aea_lattice.specs.Equations.{is_in_codeword};
ghost use Rattle.aea_lattice.specs.Parity.{differ};
ghost use Rattle.aea_sweep.specs.Words.{RiseWithin, has_odd, word_in};
ghost use Rattle.aea_sweep.specs.Labels.{label_of, AreLabels, Labels, is_classed};
ghost use Rattle.aea_sweep.specs.Stretches.{AreEnding, AreStretches, AreOpens};
ghost use Rattle.aea_sweep.specs.Firsts.{AreFirst};

use crate::labels::{label_datum, label_stretch};
use crate::word_list::WordList;
use aea_lattice::{Class, Lattice};
use std::alloc::{AllocError, Global};

// The node where a fence parts it from the one at which its strand's stretch begins, 0 where none does.
fn begins_anew(lattice: &Lattice, from: u32, node: u32) -> u32
    ensures { result ≡ cond (is_parted lattice.now.fences from node) node 0 }
{
    if lattice.fences.parts(from, node) {
        node
    } else {
        0
    }
}

// Labels the stretch that ends before this node of the word, or begins one.
fn pass_node(
    lattice: &Lattice,
    first: &mut [u32],
    skip: &mut [u32],
    starts: &mut [u32],
    node: u32,
    class: Class,
    label: u32,
)
    requires node { HasNode lattice.now node }
    requires class { HasParity lattice.now class }
    requires label { label ≢ 0 }
    requires labels { AreLabels lattice.now first.old skip.old }
    requires opens { AreOpens lattice.now starts.old }
    ensures labels { AreLabels lattice.now first.new skip.new }
    ensures opens { AreOpens lattice.now starts.new }
    ensures passed { (taken nodes : ℕ → Bool) (labels : List ℕ) → ((n : ℕ) → taken n ≡ true → n < node) → ((n : ℕ) → n < node → nodes n ≡ taken n)
        → AreStretches lattice.now class taken nodes label labels first.old starts.old
        → AreStretches lattice.now class (λ n. differ (taken n) (n == node)) nodes label labels first.new starts.new }
{
    let strand = lattice.strand(node, class) as usize;
    let from = starts[strand];
    if from == 0 {
        starts[strand] = node;
        return;
    }
    label_stretch(lattice, first, skip, from, node, class, label);
    starts[strand] = begins_anew(lattice, from, node);
}

// Labels the stretch of the strand that no later node of the word ends.
fn end_stretch(
    lattice: &Lattice,
    first: &mut [u32],
    skip: &mut [u32],
    starts: &mut [u32],
    strand: u32,
    class: Class,
    label: u32,
)
    requires strand { strand < 64 }
    requires class { HasParity lattice.now class }
    requires label { label ≢ 0 }
    requires labels { AreLabels lattice.now first.old skip.old }
    requires opens { AreOpens lattice.now starts.old }
    ensures labels { AreLabels lattice.now first.new skip.new }
    ensures opens { AreOpens lattice.now starts.new }
    ensures ended { get_or starts.new strand 0 ≡ 0 }
    ensures others { (s : ℕ) → s ≢ strand → get_or starts.new s 0 ≡ get_or starts.old s 0 }
    ensures kept { (nodes : ℕ → Bool) (labels : List ℕ) → AreEnding lattice.now class nodes nodes label labels first.old starts.old
        → AreEnding lattice.now class nodes nodes label labels first.new starts.new }
{
    let from = starts[strand as usize];
    if from == 0 {
        return;
    }
    label_stretch(lattice, first, skip, from, lattice.n() + 1, class, label);
    starts[strand as usize] = 0;
}

// Passes the nodes of a word.
fn pass_nodes(
    lattice: &Lattice,
    first: &mut [u32],
    skip: &mut [u32],
    starts: &mut [u32],
    nodes: &[u32],
    class: Class,
    label: u32,
)
    requires nodes { RiseWithin 1 nodes.now (lattice.now.n + 1) }
    requires class { HasParity lattice.now class }
    requires label { label ≢ 0 }
    requires labels { AreLabels lattice.now first.old skip.old }
    requires opens { AreOpens lattice.now starts.old }
    requires empty { (s : ℕ) → get_or starts.old s 0 ≡ 0 }
    ensures labels { AreLabels lattice.now first.new skip.new }
    ensures opens { AreOpens lattice.now starts.new }
    ensures passed { AreEnding lattice.now class (has_odd nodes.now) (has_odd nodes.now) label first.old first.new starts.new }
{
    for node in nodes {
        pass_node(lattice, first, skip, starts, *node, class, label);
    }
}

// Ends the stretches that no node ends.
fn end_stretches(
    lattice: &Lattice,
    first: &mut [u32],
    skip: &mut [u32],
    starts: &mut [u32],
    class: Class,
    label: u32,
)
    requires class { HasParity lattice.now class }
    requires label { label ≢ 0 }
    requires labels { AreLabels lattice.now first.old skip.old }
    requires opens { AreOpens lattice.now starts.old }
    ensures labels { AreLabels lattice.now first.new skip.new }
    ensures opens { AreOpens lattice.now starts.new }
    ensures ended { (s : ℕ) → s < strands_of lattice.now class → get_or starts.new s 0 ≡ 0 }
    ensures kept { (nodes : ℕ → Bool) (labels : List ℕ) → AreEnding lattice.now class nodes nodes label labels first.old starts.old
        → AreEnding lattice.now class nodes nodes label labels first.new starts.new }
{
    for strand in 0..lattice.strands(class) {
        end_stretch(lattice, first, skip, starts, strand, class, label);
    }
}

// Gives each parity of the class in the codeword of the nodes the label, if it has none.
fn label_class(
    lattice: &Lattice,
    first: &mut [u32],
    skip: &mut [u32],
    starts: &mut [u32],
    nodes: &[u32],
    class: Class,
    label: u32,
)
    requires nodes { RiseWithin 1 nodes.now (lattice.now.n + 1) }
    requires class { HasParity lattice.now class }
    requires label { label ≢ 0 }
    requires labels { AreLabels lattice.now first.old skip.old }
    requires opens { AreOpens lattice.now starts.old }
    requires empty { (s : ℕ) → get_or starts.old s 0 ≡ 0 }
    ensures labels { AreLabels lattice.now first.new skip.new }
    ensures opens { AreOpens lattice.now starts.new }
    ensures empty { (s : ℕ) → get_or starts.new s 0 ≡ 0 }
    ensures labelled { Labels lattice.now (is_classed lattice.now class (is_in_codeword lattice.now (has_odd nodes.now))) label first.old first.new }
{
    pass_nodes(lattice, first, skip, starts, nodes, class, label);
    end_stretches(lattice, first, skip, starts, class, label);
}

// Gives the data of the nodes the label, if they have none.
fn label_data(lattice: &Lattice, first: &mut [u32], skip: &[u32], nodes: &[u32], label: u32)
    requires nodes { RiseWithin 1 nodes.now (lattice.now.n + 1) }
    requires label { label ≢ 0 }
    requires labels { AreLabels lattice.now first.old skip.now }
    ensures labels { AreLabels lattice.now first.new skip.now }
    ensures labelled { Labels lattice.now (is_classed lattice.now Datum (is_in_codeword lattice.now (has_odd nodes.now))) label first.old first.new }
{
    for node in nodes {
        label_datum(lattice, first, skip, *node, label);
    }
}

// Gives each block in the codeword of the nodes the label, if it has none.
fn label_word(
    lattice: &Lattice,
    first: &mut [u32],
    skip: &mut [u32],
    starts: &mut [u32],
    nodes: &[u32],
    label: u32,
)
    requires nodes { RiseWithin 1 nodes.now (lattice.now.n + 1) }
    requires label { label ≢ 0 }
    requires labels { AreLabels lattice.now first.old skip.old }
    requires opens { AreOpens lattice.now starts.old }
    requires empty { (s : ℕ) → get_or starts.old s 0 ≡ 0 }
    ensures labels { AreLabels lattice.now first.new skip.new }
    ensures opens { AreOpens lattice.now starts.new }
    ensures empty { (s : ℕ) → get_or starts.new s 0 ≡ 0 }
    ensures labelled { Labels lattice.now (is_in_codeword lattice.now (has_odd nodes.now)) label first.old first.new }
{
    label_data(lattice, first, skip, nodes, label);
    label_class(lattice, first, skip, starts, nodes, Class::Horiz, label);
    if lattice.alpha() < 2 {
        return;
    }
    label_class(lattice, first, skip, starts, nodes, Class::Right, label);
    if lattice.alpha() < 3 {
        return;
    }
    label_class(lattice, first, skip, starts, nodes, Class::Left, label);
}

// Gives each block 1 more than the place of the first word whose codeword contains it.
fn label_words(
    lattice: &Lattice,
    first: &mut [u32],
    skip: &mut [u32],
    starts: &mut [u32],
    words: &WordList,
)
    requires rising { (r : ℕ) → RiseWithin 1 (get_or words.now r []) (lattice.now.n + 1) }
    requires few { length words.now < 2 ^ 32 }
    requires labels { AreLabels lattice.now first.old skip.old }
    requires opens { AreOpens lattice.now starts.old }
    requires empty { (s : ℕ) → get_or starts.old s 0 ≡ 0 }
    requires none { (k : ℕ) → get_or first.old k 0 ≡ 0 }
    ensures { AreFirst lattice.now 1 (length words.now + 1) (word_in ([] ∷ words.now)) first.new }
{
    for r in 0..words.len() {
        label_word(lattice, first, skip, starts, words.get(r), r as u32 + 1);
    }
}

// So many zeros.
fn zeros(alloc: Global, count: usize) -> Result<Vec<u32>, AllocError>
    ensures long { IfOk result (λ xs. length xs.items ≡ count) }
    ensures zeros { IfOk result (λ xs. (k : ℕ) → get_or xs.items k 0 ≡ 0) }
{
    vec![in alloc; 0; count]
}

// For each block by its number 1 more than the place of the first word whose codeword contains it, 0 where there is none.
pub(crate) fn first_words(
    alloc: Global,
    lattice: &Lattice,
    words: &WordList,
) -> Result<Vec<u32>, AllocError>
    requires rising { (r : ℕ) → RiseWithin 1 (get_or words.now r []) (lattice.now.n + 1) }
    requires few { length words.now < 2 ^ 32 }
    ensures long { IfOk result (λ first. length first.items ≡ blocks_count lattice.now) }
    ensures first { IfOk result (λ first. AreFirst lattice.now 1 (length words.now + 1) (word_in ([] ∷ words.now)) first.items) }
{
    let mut first = zeros(alloc, lattice.blocks() as usize)?;
    let mut skip = zeros(alloc, lattice.blocks() as usize)?;
    let mut starts = zeros(alloc, 64)?;
    label_words(
        lattice,
        first.as_mut_slice(),
        skip.as_mut_slice(),
        starts.as_mut_slice(),
        words,
    );
    Ok(first)
}
