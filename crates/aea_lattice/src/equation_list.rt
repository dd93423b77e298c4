//! The list of all equations of a lattice.

ghost use Rattle.std.specs.Prelude.{◌≡◌, ◌++◌, IfOk, OnOk, All, map};
ghost use Rattle.aea_lattice.specs.Blocks.{classes};
ghost use Rattle.aea_lattice.specs.Equations.{HasEquation, equation_of, equations_of};

use crate::blocks::{Class, EqId};
use crate::grid::Lattice;
use std::alloc::{AllocError, Global};

impl Lattice {
    // Puts the equations of the node last.
    fn push_equations(&self, equations: &mut Vec<EqId>, node: u32) -> Result<(), AllocError>
        ensures { OnOk result (equations.new.items ≡ equations.old.items ++ map (equation_of node) (classes self.now)) }
    {
        let class = Class::Horiz;
        equations.push(EqId { node, class })?;
        if self.alpha < 2 {
            return Ok(());
        }
        let class = Class::Right;
        equations.push(EqId { node, class })?;
        if self.alpha < 3 {
            return Ok(());
        }
        let class = Class::Left;
        equations.push(EqId { node, class })?;
        Ok(())
    }

    /// The equations of the lattice, in equation order: one for each node and each class of parities. It takes memory for
    /// the list; an error is out of memory.
    pub fn equations(&self, alloc: Global) -> Result<Vec<EqId>, AllocError>
        ensures all { IfOk result (λ equations. equations.items ≡ equations_of self.now) }
        ensures inside { IfOk result (λ equations. All (HasEquation self.now) equations.items) }
    {
        let mut equations = Vec::new(alloc);
        for node in 1..self.n + 1 {
            self.push_equations(&mut equations, node)?;
        }
        Ok(equations)
    }
}
