//! Open parentheses.
ghost use Rattle.std.specs.Prelude.{◌≡◌, [], ◌∷◌, IfOk, MatchOption};

use std::alloc::Global;
use std::marker::Model;
use trace_types::Memory;

/// Which of the two children of a parenthesis is being read.
#[derive(Clone, Copy)]
pub enum Side {
    Left,
    Right,
}

/// For each open parenthesis which child is being read, the innermost first. A contract sees the list.
#[derive(Drop)]
pub struct Nesting {
    sides: Vec<Side>,
}

impl Model for Nesting {
    ghost use Rattle.std.specs.Prelude.{List, reverse};
    ghost use Rattle.stamp_codec.specs.declared.scan.nesting.Side.{Side};

    ghost Value = { List Side };

    ghost view = { λ nesting. reverse nesting.sides.items };
}

impl Nesting {
    /// No parenthesis is open. It takes no memory.
    pub fn new(alloc: Global) -> Nesting
        ensures { result ≡ [] }
    {
        Nesting {
            sides: Vec::new(alloc),
        }
    }

    /// Opens a parenthesis whose child on this side is read next.
    pub fn push(&mut self, side: Side) -> Result<(), Memory>
        ensures { IfOk result (λ _. self.new ≡ side ∷ self.old) }
    {
        self.sides.push(side)?;
        Ok(())
    }

    /// Closes the innermost parenthesis, and gives the child that was read, or `None` if none was open.
    pub fn pop(&mut self) -> Option<Side>
        ensures { MatchOption result ((self.old ≡ []) × (self.new ≡ [])) (λ side. self.old ≡ side ∷ self.new) }
    {
        self.sides.pop()
    }
}
