//! A place in a script.
use crate::End;
use ledger_model::{Block, Statement};
use stm_model::Ask;

/// What is to come behind a part that ends.
#[derive(Drop)]
pub enum Frame<'a> {
    /// The statements of a block from this one on.
    Rest {
        block: &'a [Statement],
        index: usize,
    },
    /// The end of a level, with the registers as it began and how many before-commit bodies were
    /// registered then.
    Close {
        registers: [u64; 16],
        count: usize,
    },
    /// A register for the code of a nested block.
    Catch {
        reg: u8,
    },
    /// The parts of an `either` from this one on.
    Try {
        parts: &'a [Block],
        index: usize,
    },
}

/// Where a cursor stands: at a print, at a request or at an end.
#[derive(Clone, Copy)]
pub enum Point {
    Says {
        number: u64,
    },
    /// At a read into a register.
    Reads {
        cell: u32,
        reg: u8,
    },
    /// At a request whose answer is of no use. Behind it the part ends so.
    Tells {
        ask: Ask,
        end: End,
    },
    /// At a move that reads the reference that it takes from.
    Takes {
        from: u32,
        into: u32,
        number: u64,
    },
    /// At a move that leaves the rest in that reference.
    Leaves {
        from: u32,
        rest: u64,
        into: u32,
        number: u64,
    },
    /// At a move that reads the reference that it adds to.
    Adds {
        into: u32,
        number: u64,
    },
    /// At the end of a before-commit body.
    Ends,
    /// At the end of the script, which gives up unless it is kept.
    GivesUp {
        end: End,
    },
    Over {
        end: End,
    },
}

/// What of a script goes on: its block, a before-commit body, or neither of them.
#[derive(Clone, Copy)]
pub enum Section {
    Block,
    Between,
    Body,
}
