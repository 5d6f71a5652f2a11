//! Scripts: trees of statements.

use stm_model::{HookPhase, Series};

/// What a statement is given: a register, from 0 to 15, or a number.
#[derive(Clone, Copy, Debug, PartialEq, Eq)]
pub enum Operand {
    Reg(u8),
    Number(u64),
}

/// One statement of a script. Arithmetic is modulo 2^64.
#[derive(Drop)]
pub enum Statement {
    /// The register becomes the number.
    Const {
        reg: u8,
        number: u64,
    },
    /// The register becomes the reference's value.
    Read {
        reg: u8,
        cell: u32,
    },
    /// The reference becomes the value.
    Write {
        cell: u32,
        value: Operand,
    },
    Add {
        reg: u8,
        value: Operand,
    },
    Sub {
        reg: u8,
        value: Operand,
    },
    /// Appends the value to what the script prints.
    Print {
        value: Operand,
    },
    /// Fails with the code where left is less than right.
    Check {
        left: Operand,
        right: Operand,
        code: u16,
    },
    /// Retries where left is less than right.
    Need {
        left: Operand,
        right: Operand,
    },
    /// Moves the value from one reference to another. Fails with 1 where the first has too little,
    /// and with 2 where the second would pass 2^64 - 1.
    Move {
        from: u32,
        into: u32,
        value: Operand,
    },
    /// A nested block. Where it fails it is undone and the register becomes its code, else 0.
    Inner {
        reg: u8,
        block: Block,
    },
    /// The first part that doesn't retry. Those that do are undone.
    Either {
        parts: Parts,
    },
    /// Registers a body that runs after the whole script.
    Late {
        block: Block,
    },
    /// Registers a handler.
    Hook {
        phase: HookPhase,
        token: u64,
    },
    /// Sets a pair of a map.
    Put {
        map: u32,
        key: Operand,
        value: Operand,
    },
    /// Removes a pair of a map.
    Del {
        map: u32,
        key: Operand,
    },
    /// The register becomes the key's value in a map, or the other value where it has none.
    Look {
        reg: u8,
        map: u32,
        key: Operand,
        other: Operand,
    },
    /// The same in a snapshot.
    LookSlot {
        reg: u8,
        slot: u32,
        key: Operand,
        other: Operand,
    },
    /// The slot becomes what the map is now.
    Snap {
        slot: u32,
        map: u32,
    },
    /// The map `into` becomes what the map `from` is now.
    Share {
        from: u32,
        into: u32,
    },
}

/// Statements, one after another.
pub type Block = Series<Statement>;

/// The parts of an `either`.
pub type Parts = Series<Block>;

/// A transaction: its statements take place as one step, or not at all.
#[derive(Drop)]
pub struct Script {
    pub block: Block,
}
