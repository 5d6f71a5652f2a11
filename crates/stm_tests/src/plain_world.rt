//! The plain world at work.
ghost use Rattle.std.specs.Prelude.{◌≡◌, ◌<◌, length, IfOk};
ghost use Rattle.stm_model.specs.declared.access.Access.TheVariants.{Exchange};

use meta_word::{CHANGING_BIT, Meta, Phase, TxnStatus, pack_meta, pack_status};
use opacity::World;
use std::test::Fail;
use stm_model::{Access, Addr, Free, Note, Rest, Word};

/// Two callers, and two cells with 5 and 7.
fn two(rt: &HostRuntime) -> Result<World<Free>, Fail>
    ensures cells { IfOk result (λ world. length world.opening.items ≡ 2) }
    ensures callers { IfOk result (λ world. world.callers ≡ 2) }
{
    Ok(World::new(rt.alloc(), Free, 2, 100, &[5, 7])?)
}

#[test]
#[tactic(auto, unfolding(opacity::specs::Words::IsOfTable, stm_model::specs::Accesses::word_of, opacity::specs::Plain::IsUndecided))]
fn each_kind_of_access_changes_its_word(rt: HostRuntime) -> Result<(), Fail> {
    let mut world = two(&rt)?;
    let attempts = [Rest, Rest];
    let value = Word::Value(Addr(1));
    assert_eq!(rt; world.clock(), 0);
    assert_eq!(rt; world.word(value), 7);
    assert_eq!(rt; world.act(1, Access::Store(value, 12), &attempts), 7);
    assert_eq!(rt; world.act(1, Access::SetBits(value, 3), &attempts), 12);
    assert_eq!(rt; world.act(2, Access::ClearBits(value, 5), &attempts), 15);
    assert_eq!(rt; world.act(2, Access::Swap(value, 1), &attempts), 10);
    assert_eq!(rt; world.act(2, Access::Load(value), &attempts), 1);
    Ok(())
}

// The status word of a caller's first attempt.
fn first_in(phase: Phase) -> u64 {
    pack_status(TxnStatus { serial: 1, phase })
}

// The metadata of a cell at a version, with its owner, and nothing else.
fn cell_of(owner: u16, version: u64) -> u64
    requires owner { owner < 2 }
    requires version { version < 2 }
{
    pack_meta(Meta {
        changing: false,
        pending: false,
        owner,
        version,
    })
}

fn exchange(word: Word, old: u64, new: u64) -> Access
    ensures { result ≡ Exchange word old new }
{
    Access::Exchange { word, old, new }
}

#[test]
#[tactic(auto, unfolding(opacity::specs::Words::IsOfTable, stm_model::specs::Accesses::word_of, opacity::specs::Plain::IsUndecided))]
fn a_write_is_committed(rt: HostRuntime) -> Result<(), Fail> {
    let mut world = World::new(rt.alloc(), Free, 1, 100, &[0])?;
    let attempts = [Rest];
    let (status, meta, value) = (Word::Status(1), Word::Meta(Addr(0)), Word::Value(Addr(0)));
    let active = first_in(Phase::Active);
    let preparing = first_in(Phase::Preparing);
    world.act(1, Access::Store(status, active), &attempts);
    assert_eq!(rt; world.act(1, Access::Load(Word::Clock), &attempts), 0);
    let found = world.act(1, Access::Load(meta), &attempts);
    let own = cell_of(1, 0);
    world.act(1, exchange(meta, found, own), &attempts);
    assert_eq!(rt; world.word(meta), own);
    world.act(1, exchange(status, active, preparing), &attempts);
    world.act(1, Access::SetBits(meta, CHANGING_BIT), &attempts);
    assert_eq!(rt; world.act(1, Access::Load(Word::Clock), &attempts), 0);
    let mut writes = Vec::new(rt.alloc());
    writes.push(Note {
        addr: Addr(0),
        version: 0,
        value: 9,
    })?;
    let reads = Vec::new(rt.alloc());
    world.reserve(0, 1)?;
    assert_eq!(rt; world.decide(1, 0, &attempts, &reads, &writes)?, 0);
    assert_eq!(rt; world.clock(), 1);
    world.act(1, Access::Store(value, 9), &attempts);
    world.act(1, Access::Swap(meta, cell_of(0, 1)), &attempts);
    world.act(1, Access::Store(status, first_in(Phase::Idle)), &attempts);
    assert_eq!(rt; world.word(value), 9);
    assert_eq!(rt; world.word(meta), cell_of(0, 1));
    assert_eq!(rt; world.history.len(), 1);
    Ok(())
}
