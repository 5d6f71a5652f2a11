//! Blocks and alternatives as bodies.
ghost use Rattle.std.specs.Prelude.{◌≡◌, ◌<◌, Ok};
ghost use Rattle.or_atomic.specs.Blocks.{EitherLeaves, EitherMeans, NestedLeaves, NestedMeans};

use or_atomic::{Nested, either, nested};
use stm_model::{Body, Cause, Cells, Choices, Free};

/// A body as a block.
#[derive(Drop)]
pub struct Block<B> {
    pub inner: B,
}

impl<B: Body<Free>> Body<Free> for Block<B> {
    type Out = Nested<B::Out>;

    ghost fits = { λ block law size. B.fits block.inner law size };

    ghost means = { λ block heap before answer after left. NestedMeans B.means block.inner heap before answer after left.inner };

    ghost leaves = { λ block heap before left. NestedLeaves B.leaves block.inner heap before left.inner };

    ghost late_means = { λ block token heap before answer after left. B.late_means block.inner token heap before answer after left.inner };

    ghost late_leaves = { λ block token heap before left. B.late_leaves block.inner token heap before left.inner };

    fn run<C: Cells<Free>>(&mut self, cells: &mut C) -> Result<Nested<B::Out>, Cause> {
        nested(cells, &mut self.inner)
    }

    fn late<C: Cells<Free>>(&mut self, cells: &mut C, token: u64) -> Result<(), Cause> {
        self.inner.late(cells, token)
    }
}

/// Alternatives as a body.
#[derive(Drop)]
pub struct First<E> {
    pub parts: E,
}

impl<E: Choices<Free>> Body<Free> for First<E> {
    type Out = E::Out;

    ghost fits = { λ first law size. (0 < E.number first.parts) × E.fits first.parts law size };

    ghost means = { λ first heap before answer after left.
        EitherMeans E.means (E.number first.parts) first.parts heap before answer after left.parts };

    ghost leaves = { λ first heap before left. EitherLeaves E.means E.leaves (E.number first.parts) first.parts heap before left.parts };

    ghost late_means = { λ first token heap before answer after left. (left ≡ first) × (answer ≡ Ok tt) × (after ≡ before) };

    ghost late_leaves = { λ first token heap before left. left ≡ first };

    fn run<C: Cells<Free>>(&mut self, cells: &mut C) -> Result<E::Out, Cause> {
        either(cells, &mut self.parts)
    }

    fn late<C: Cells<Free>>(&mut self, _cells: &mut C, _token: u64) -> Result<(), Cause> {
        Ok(())
    }
}
