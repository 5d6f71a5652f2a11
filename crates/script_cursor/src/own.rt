//! What a script keeps to itself.
ghost use Rattle.std.specs.Prelude.{◌≡◌, ◌++◌, [], ◌∷◌, length, slice_get, slice_index, IfNone, IfSome, OnOk, OnErr};
ghost use Rattle.ledger_model.specs.Talk.{back_to, own_start, value_in, with_register};

use ledger_model::{Block, Operand};
use std::alloc::Global;
use std::marker::Model;
use stm_model::Memory;

/// A script's registers, and all before-commit bodies that it has registered.
#[derive(Drop)]
pub struct Own<'a> {
    registers: [u64; 16],
    lates: Vec<&'a Block>,
}

impl<'a> Model for Own<'a> {
    ghost use Rattle.std.specs.Prelude.{map};
    ghost use Rattle.std.specs.Coded.{codes};
    ghost use Rattle.ledger_model.specs.Talk as talk;
    ghost use Rattle.ledger_model.specs.contracts.script.Statement as statement;

    ghost Value = { talk.Own };

    ghost coded = { Prim.hlevel (codes, statement.the_row.coded) };

    ghost view = { λ s. record {
      registers = s.registers;
      lates = map (λ body. body.now) s.lates.items;
    } };
}

impl<'a> Own<'a> {
    /// All registers are 0, and nothing is registered.
    pub fn new(alloc: Global) -> Own<'a>
        ensures { result ≡ own_start }
    {
        Own {
            registers: [0; 16],
            lates: Vec::new(alloc),
        }
    }

    pub fn registers(&self) -> [u64; 16]
        ensures { result ≡ self.now.registers }
    {
        self.registers
    }

    /// A register's value, and 0 where there is no such register.
    pub fn register(&self, reg: u8) -> u64
        ensures { result ≡ slice_index self.now.registers reg }
    {
        match self.registers.get(usize::from(reg)) {
            Some(number) => *number,
            None => 0,
        }
    }

    pub fn set_register(&mut self, reg: u8, number: u64)
        ensures { self.new ≡ with_register reg number self.old }
    {
        if reg < 16 {
            self.registers[usize::from(reg)] = number;
        }
    }

    pub fn value_in(&self, operand: Operand) -> u64
        ensures { result ≡ value_in operand self.now }
    {
        match operand {
            Operand::Reg(reg) => self.register(reg),
            Operand::Number(number) => number,
        }
    }

    /// How many before-commit bodies are registered.
    pub fn count(&self) -> usize
        ensures { result ≡ length self.now.lates }
    {
        self.lates.len()
    }

    /// Registers a before-commit body.
    pub fn add_late(&mut self, body: &'a Block) -> Result<(), Memory>
        ensures ok { OnOk result (self.new ≡
            record self.old { lates = self.old.lates ++ body.entry.now ∷ [] }) }
        ensures err { OnErr result (self.new ≡ self.old) }
    {
        self.lates.push(body)?;
        Ok(())
    }

    /// The before-commit body of this number, from 0, if there is one.
    pub fn late(&self, number: usize) -> Option<&'a Block>
        ensures none { IfNone result (slice_get self.now.lates number ≡ None) }
        ensures some { IfSome result (λ body. slice_get self.now.lates number ≡ Some body.now) }
    {
        match self.lates.get(number) {
            Some(body) => Some(*body),
            None => None,
        }
    }

    /// Goes back to these registers, and to the first so many before-commit bodies.
    pub fn go_back(&mut self, registers: [u64; 16], count: usize)
        ensures { self.new ≡ back_to registers count self.old }
    {
        self.registers = registers;
        self.lates.truncate(count);
    }
}
