//! The blocks around a block: those that share an equation with it.

ghost use Rattle.std.specs.Prelude.{◌≡◌, ◌≤◌, [], true, length, IsTrue, OnOk, Err};
ghost use Rattle.std.specs.Option.{ForSome};
ghost use Rattle.aea_lattice.specs.declared.blocks.BlockId.{BlockId};
ghost use Rattle.aea_lattice.specs.declared.blocks.EqId.{EqId};
ghost use Rattle.aea_lattice.specs.Blocks.{HasBlock, HasNode, HasParity, class_number, block_of};
ghost use Rattle.aea_lattice.specs.Equations.{HasEquation, equation_of};
ghost use Rattle.aea_view.specs.Marked.{is_marked};
ghost use Rattle.aea_disk.specs.Frames.{OnlyReads};
ghost use Rattle.aea_shelf.specs.Places.{cell_size};
ghost use Rattle.aea_search.specs.Searches.{IsAllRead, IsGoneAround, Goes, Looks};

use crate::searching::{Search, SearchFault};
use aea_disk::Disk;
use aea_lattice::{BlockId, Class, EqId};
use aea_ledger::Ledger;

impl Search {
    // Looks at the input of an equation, if it has one.
    fn look_input<D: Disk>(
        &mut self,
        ledger: &Ledger,
        disk: &mut D,
        input: Option<BlockId>,
        cell: &mut [u8],
    ) -> Result<(), SearchFault>
        requires same { self.old.read.lattice ≡ ledger.now.lattice }
        requires input { ForSome input (HasBlock ledger.now.lattice) }
        requires buffer { length cell.old ≡ cell_size ledger.now.shape }
        ensures read { OnOk result (ForSome input (λ g. is_marked self.new.read g ≡ true)) }
        ensures looks { Looks D.reveals (result ≡ Err SearchFault.DiskFault) ledger.now self.old self.new (D.state disk.old) (D.state disk.new) }
    {
        match input {
            Some(g) => self.look(ledger, disk, g, cell),
            None => Ok(()),
        }
    }

    // Looks at the blocks of the equation.
    fn look_blocks<D: Disk>(
        &mut self,
        ledger: &Ledger,
        disk: &mut D,
        e: EqId,
        cell: &mut [u8],
    ) -> Result<(), SearchFault>
        requires same { self.old.read.lattice ≡ ledger.now.lattice }
        requires equation { HasEquation ledger.now.lattice e }
        requires buffer { length cell.old ≡ cell_size ledger.now.shape }
        ensures read { OnOk result (IsAllRead ledger.now.lattice self.new.read e) }
        ensures looks { Looks D.reveals (result ≡ Err SearchFault.DiskFault) ledger.now self.old self.new (D.state disk.old) (D.state disk.new) }
    {
        let q = ledger.lattice().equation(e);
        match self.look(ledger, disk, q.datum, cell) {
            Ok(()) => (),
            Err(fault) => return Err(fault),
        }
        match self.look(ledger, disk, q.output, cell) {
            Ok(()) => (),
            Err(fault) => return Err(fault),
        }
        self.look_input(ledger, disk, q.input, cell)
    }

    // Looks at the blocks of the equation of this node and class, if the lattice has the class.
    fn look_class<D: Disk>(
        &mut self,
        ledger: &Ledger,
        disk: &mut D,
        node: u32,
        class: Class,
        cell: &mut [u8],
    ) -> Result<(), SearchFault>
        requires same { self.old.read.lattice ≡ ledger.now.lattice }
        requires node { HasNode ledger.now.lattice node }
        requires parity { 1 ≤ class_number class }
        requires buffer { length cell.old ≡ cell_size ledger.now.shape }
        ensures read { OnOk result (HasParity ledger.now.lattice class → IsAllRead ledger.now.lattice self.new.read (equation_of node class)) }
        ensures looks { Looks D.reveals (result ≡ Err SearchFault.DiskFault) ledger.now self.old self.new (D.state disk.old) (D.state disk.new) }
    {
        if class as u8 <= ledger.lattice().alpha() {
            return self.look_blocks(ledger, disk, EqId { node, class }, cell);
        }
        Ok(())
    }

    // Looks at the blocks of the equations of the node.
    fn look_node<D: Disk>(
        &mut self,
        ledger: &Ledger,
        disk: &mut D,
        node: u32,
        cell: &mut [u8],
    ) -> Result<(), SearchFault>
        requires same { self.old.read.lattice ≡ ledger.now.lattice }
        requires node { HasNode ledger.now.lattice node }
        requires buffer { length cell.old ≡ cell_size ledger.now.shape }
        ensures read { OnOk result ((e : EqId) → HasEquation ledger.now.lattice e → e.node ≡ node → IsAllRead ledger.now.lattice self.new.read e) }
        ensures looks { Looks D.reveals (result ≡ Err SearchFault.DiskFault) ledger.now self.old self.new (D.state disk.old) (D.state disk.new) }
    {
        match self.look_class(ledger, disk, node, Class::Horiz, cell) {
            Ok(()) => (),
            Err(fault) => return Err(fault),
        }
        match self.look_class(ledger, disk, node, Class::Right, cell) {
            Ok(()) => (),
            Err(fault) => return Err(fault),
        }
        self.look_class(ledger, disk, node, Class::Left, cell)
    }

    // Looks at the blocks of the one or two equations in which a parity occurs.
    fn look_parity<D: Disk>(
        &mut self,
        ledger: &Ledger,
        disk: &mut D,
        node: u32,
        class: Class,
        cell: &mut [u8],
    ) -> Result<(), SearchFault>
        requires same { self.old.read.lattice ≡ ledger.now.lattice }
        requires node { HasNode ledger.now.lattice node }
        requires class { HasParity ledger.now.lattice class }
        requires buffer { length cell.old ≡ cell_size ledger.now.shape }
        ensures around { OnOk result (IsGoneAround ledger.now.lattice self.new.read (block_of node class)) }
        ensures looks { Looks D.reveals (result ≡ Err SearchFault.DiskFault) ledger.now self.old self.new (D.state disk.old) (D.state disk.new) }
    {
        match self.look_class(ledger, disk, node, class, cell) {
            Ok(()) => (),
            Err(fault) => return Err(fault),
        }
        match ledger.lattice().next(node, class) {
            Some(next) => self.look_class(ledger, disk, next, class, cell),
            None => Ok(()),
        }
    }

    // Looks at the blocks of the equations in which the block occurs.
    fn look_around<D: Disk>(
        &mut self,
        ledger: &Ledger,
        disk: &mut D,
        b: BlockId,
        cell: &mut [u8],
    ) -> Result<(), SearchFault>
        requires same { self.old.read.lattice ≡ ledger.now.lattice }
        requires block { HasBlock ledger.now.lattice b }
        requires buffer { length cell.old ≡ cell_size ledger.now.shape }
        ensures around { OnOk result (IsGoneAround ledger.now.lattice self.new.read b) }
        ensures looks { Looks D.reveals (result ≡ Err SearchFault.DiskFault) ledger.now self.old self.new (D.state disk.old) (D.state disk.new) }
    {
        match b.class {
            Class::Datum => self.look_node(ledger, disk, b.node, cell),
            _ => self.look_parity(ledger, disk, b.node, b.class, cell),
        }
    }

    /// Goes around the blocks that wait, and around those that it finds unknown, until none waits: it reads the cell of each block
    /// that shares an equation with one of them, unless it was read before, into the buffer, which has the bytes of a cell,
    /// B + 48. The time is linear in the unknown blocks. It takes 8 bytes of memory for each unknown block. Nothing is written. After
    /// an error the search stands where it had come to.
    pub fn finish<D: Disk>(
        &mut self,
        ledger: &Ledger,
        disk: &mut D,
        cell: &mut [u8],
    ) -> Result<(), SearchFault>
        requires same { self.old.read.lattice ≡ ledger.now.lattice }
        requires buffer { length cell.old ≡ cell_size ledger.now.shape }
        ensures done { OnOk result (self.new.waiting ≡ []) }
        ensures goes { Goes D.reveals ledger.now (D.state disk.old).files self.old self.new }
        ensures reads { OnlyReads D.reveals (result ≡ Err SearchFault.DiskFault) (D.state disk.old) (D.state disk.new) }
    {
        while let Some(b) = self.first() {
            match self.look_around(ledger, disk, b, cell) {
                Ok(()) => (),
                Err(fault) => return Err(fault),
            }
            self.pass();
        }
        Ok(())
    }
}
