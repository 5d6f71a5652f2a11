//! What lines have begun and no `end` has ended.

ghost use Rattle.std.specs.Prelude.{◌≡◌, [], ◌∷◌, List, map, length, MatchOption, OnOk};
ghost use Rattle.script_text.specs.declared.frames.Frame.{Frame};
ghost use Rattle.script_text.specs.Standing.{in_part, may_end};
ghost use Rattle.script_text.specs.Frames.{opener_of};

use ledger_model::{Block, Parts};
use std::alloc::{AllocError, Global};
use std::marker::Model;
use stm_model::Memory;

/// What a line has begun.
#[derive(Drop)]
pub enum Begun {
    Script,
    /// A nested block, with the register for its code.
    Inner(u8),
    /// Alternatives, with the parts before the one that is open.
    Either(Parts),
    Late,
}

/// What is begun, and the statements so far of the block around it.
#[derive(Drop)]
pub struct Frame {
    pub begun: Begun,
    pub outer: Block,
}

/// Frames, the innermost first.
#[derive(Drop)]
pub struct Frames {
    entries: Vec<Frame>,
}

impl Model for Frames {
    ghost use Rattle.std.specs.Prelude.{List, reverse};
    ghost use Rattle.std.specs.Coded.{codes};
    ghost use Rattle.script_text.specs.declared.frames.Frame.{Frame};
    ghost use Rattle.ledger_model.specs.contracts.script.Statement as statement;

    ghost Value = { List Frame };

    ghost coded = { Prim.hlevel (codes, statement.the_row.coded) };

    ghost view = { λ f. reverse f.entries.items };
}

impl Frames {
    pub fn new(alloc: Global) -> Frames
        ensures { result ≡ [] }
    {
        Frames {
            entries: Vec::new(alloc),
        }
    }

    pub fn len(&self) -> usize
        ensures { result ≡ length self.now }
    {
        self.entries.len()
    }

    fn innermost(&self) -> Option<&Frame>
        ensures { MatchOption result (self.now ≡ []) (λ frame. (more : List Frame) × (self.now ≡ frame.now ∷ more)) }
    {
        let len = self.entries.len();
        if len == 0 {
            None
        } else {
            Some(&self.entries[len - 1])
        }
    }

    /// Whether a further part may begin.
    pub fn are_in_part(&self) -> bool
        ensures { result ≡ in_part (map opener_of self.now) }
    {
        match self.innermost() {
            Some(frame) => match &frame.begun {
                Begun::Either(_) => true,
                _ => false,
            },
            None => false,
        }
    }

    /// Whether the innermost may end.
    pub fn may_end(&self) -> bool
        ensures { result ≡ may_end (map opener_of self.now) }
    {
        match self.innermost() {
            Some(frame) => match &frame.begun {
                Begun::Either(parts) => parts.len() != 0,
                _ => true,
            },
            None => false,
        }
    }

    pub fn push(&mut self, frame: Frame) -> Result<(), Memory>
        ensures { OnOk result (self.new ≡ frame ∷ self.old) }
    {
        self.entries.push(frame).map_err(AllocError::from)?;
        Ok(())
    }

    pub fn pop(&mut self) -> Option<Frame>
        ensures { MatchOption result ((self.old ≡ []) × (self.new ≡ [])) (λ frame. self.old ≡ frame ∷ self.new) }
    {
        self.entries.pop()
    }
}
