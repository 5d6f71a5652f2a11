//! Bodies on single cells.
ghost use Rattle.std.specs.Prelude.{◌<◌};
ghost use Rattle.stm_model.specs.Refusing.{IsOfBody};

use or_atomic::{Nested, nested};
use ref_views::Ref;
use stm_model::{Free, HookPhase};
use txn_run::{Body, Cause, Cells};

/// Reads a cell.
#[derive(Clone, Copy)]
pub struct Gets {
    pub cell: Ref<u64>,
}

impl Body<Free> for Gets {
    type Out = u64;

    ghost fits = { λ body law size. body.cell.addr.0 < size };

    ghost means = { λ body heap before answer after left. Unit {0} };

    ghost leaves = { λ body heap before left. Unit {0} };

    ghost late_means = { λ body token heap before answer after left. Unit {0} };

    ghost late_leaves = { λ body token heap before left. Unit {0} };

    fn run<C: Cells<Free>>(&mut self, cells: &mut C) -> Result<u64, Cause> {
        let value = self.cell.get(cells)?;
        Ok(value)
    }

    fn late<C: Cells<Free>>(&mut self, _cells: &mut C, _token: u64) -> Result<(), Cause> {
        Ok(())
    }
}

/// Writes to a cell. Registers a handler for the commit, under token 7.
#[derive(Clone, Copy)]
pub struct Sets {
    pub cell: Ref<u64>,
    pub value: u64,
}

impl Body<Free> for Sets {
    type Out = ();

    ghost fits = { λ body law size. body.cell.addr.0 < size };

    ghost means = { λ body heap before answer after left. Unit {0} };

    ghost leaves = { λ body heap before left. Unit {0} };

    ghost late_means = { λ body token heap before answer after left. Unit {0} };

    ghost late_leaves = { λ body token heap before left. Unit {0} };

    fn run<C: Cells<Free>>(&mut self, cells: &mut C) -> Result<(), Cause> {
        cells.hook(HookPhase::Commit, 7)?;
        self.cell.set(cells, self.value)?;
        Ok(())
    }

    fn late<C: Cells<Free>>(&mut self, _cells: &mut C, _token: u64) -> Result<(), Cause> {
        Ok(())
    }
}

/// Reads a cell, writes 9 to it and answers a cause. Registers a handler for the rollback, under token 8.
#[derive(Clone, Copy)]
pub struct Fails {
    pub cell: Ref<u64>,
    pub cause: Cause,
}

impl Body<Free> for Fails {
    type Out = ();

    ghost fits = { λ body law size. (body.cell.addr.0 < size) × IsOfBody body.cause };

    ghost means = { λ body heap before answer after left. Unit {0} };

    ghost leaves = { λ body heap before left. Unit {0} };

    ghost late_means = { λ body token heap before answer after left. Unit {0} };

    ghost late_leaves = { λ body token heap before left. Unit {0} };

    fn run<C: Cells<Free>>(&mut self, cells: &mut C) -> Result<(), Cause> {
        cells.hook(HookPhase::Rollback, 8)?;
        self.cell.get(cells)?;
        self.cell.set(cells, 9)?;
        Err(self.cause)
    }

    fn late<C: Cells<Free>>(&mut self, _cells: &mut C, _token: u64) -> Result<(), Cause> {
        Ok(())
    }
}

/// Runs a body that answers a cause as a block. Answers the code with which the block failed.
#[derive(Clone, Copy)]
pub struct Codes {
    pub block: Fails,
}

impl Body<Free> for Codes {
    type Out = Option<u16>;

    ghost fits = { λ body law size. (body.block.cell.addr.0 < size) × IsOfBody body.block.cause };

    ghost means = { λ body heap before answer after left. Unit {0} };

    ghost leaves = { λ body heap before left. Unit {0} };

    ghost late_means = { λ body token heap before answer after left. Unit {0} };

    ghost late_leaves = { λ body token heap before left. Unit {0} };

    fn run<C: Cells<Free>>(&mut self, cells: &mut C) -> Result<Option<u16>, Cause> {
        let mut block = self.block;
        match nested(cells, &mut block)? {
            Nested::Kept(()) => Ok(None),
            Nested::Failed { code } => Ok(Some(code)),
        }
    }

    fn late<C: Cells<Free>>(&mut self, _cells: &mut C, _token: u64) -> Result<(), Cause> {
        Ok(())
    }
}

/// Opens so many levels.
#[derive(Clone, Copy)]
pub struct Deep {
    pub levels: u32,
}

impl Body<Free> for Deep {
    type Out = ();

    ghost fits = { λ body law size. 64 < body.levels };

    ghost means = { λ body heap before answer after left. Unit {0} };

    ghost leaves = { λ body heap before left. Unit {0} };

    ghost late_means = { λ body token heap before answer after left. Unit {0} };

    ghost late_leaves = { λ body token heap before left. Unit {0} };

    fn run<C: Cells<Free>>(&mut self, cells: &mut C) -> Result<(), Cause> {
        for _ in 0..self.levels {
            cells.enter()?;
        }
        Ok(())
    }

    fn late<C: Cells<Free>>(&mut self, _cells: &mut C, _token: u64) -> Result<(), Cause> {
        Ok(())
    }
}

/// Adds one to a cell, modulo 2^64.
#[derive(Clone, Copy)]
pub struct AddsOne {
    pub cell: Ref<u64>,
}

impl Body<Free> for AddsOne {
    type Out = ();

    ghost fits = { λ body law size. body.cell.addr.0 < size };

    ghost means = { λ body heap before answer after left. Unit {0} };

    ghost leaves = { λ body heap before left. Unit {0} };

    ghost late_means = { λ body token heap before answer after left. Unit {0} };

    ghost late_leaves = { λ body token heap before left. Unit {0} };

    fn run<C: Cells<Free>>(&mut self, cells: &mut C) -> Result<(), Cause> {
        self.cell
            .transform(cells, &mut |value: u64| value.wrapping_add(1))
    }

    fn late<C: Cells<Free>>(&mut self, _cells: &mut C, _token: u64) -> Result<(), Cause> {
        Ok(())
    }
}

/// The same, with a handler for the commit or the rollback, whichever comes.
#[derive(Clone, Copy)]
pub struct Counted {
    pub cell: Ref<u64>,
}

impl Body<Free> for Counted {
    type Out = ();

    ghost fits = { λ body law size. body.cell.addr.0 < size };

    ghost means = { λ body heap before answer after left. Unit {0} };

    ghost leaves = { λ body heap before left. Unit {0} };

    ghost late_means = { λ body token heap before answer after left. Unit {0} };

    ghost late_leaves = { λ body token heap before left. Unit {0} };

    fn run<C: Cells<Free>>(&mut self, cells: &mut C) -> Result<(), Cause> {
        cells.hook(HookPhase::Completion, 1)?;
        let value = self.cell.get(cells)?;
        self.cell.set(cells, value.wrapping_add(1))?;
        Ok(())
    }

    fn late<C: Cells<Free>>(&mut self, _cells: &mut C, _token: u64) -> Result<(), Cause> {
        Ok(())
    }
}
