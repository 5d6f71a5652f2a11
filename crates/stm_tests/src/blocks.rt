//! Blocks and alternatives, on plain cells.
ghost use Rattle.std.specs.Prelude.{◌≡◌, length, IfOk};

mod failing;
mod inner;
mod parts;

use failing::Failing;
use inner::{Block, First};
use or_atomic::{Nested, either, nested};
use parts::Parts;
use plain_cells::PlainCells;
use std::test::Fail;
use stm_model::{Addr, Cause, Cells, Free};

// Three cells with 5, 7 and 0.
fn three(rt: &HostRuntime) -> Result<PlainCells<Free>, Fail>
    ensures { IfOk result (λ cells. length cells.heap.items ≡ 3) }
{
    let alloc = rt.alloc();
    Ok(PlainCells::new(alloc, Free, [5, 7, 0].to_vec(alloc)?))
}

// Reads the second cell and writes to it, in vain.
fn fails_with_five() -> Failing
    ensures { result.addr.0 ≡ 1 }
{
    Failing {
        addr: Addr(1),
        code: 5,
    }
}

#[test]
fn a_block_that_fails_leaves_its_reads_alone(rt: HostRuntime) -> Result<(), Fail> {
    let mut cells = three(&rt)?;
    assert_eq!(rt; cells.set(Addr(2), 4), Ok(()));
    assert_eq!(rt;
        nested(&mut cells, &mut fails_with_five()),
        Ok(Nested::Failed { code: 5 })
    );
    assert_eq!(rt; cells.book.writes.as_slice(), [(2, 4)].as_slice());
    assert_eq!(rt; cells.notes.len(), 1);
    assert_eq!(rt; cells.saved.len(), 0);
    assert_eq!(rt; cells.get(Addr(1)), Ok(7));
    Ok(())
}

#[test]
fn the_first_part_that_goes_on_is_kept(rt: HostRuntime) -> Result<(), Fail> {
    let mut cells = three(&rt)?;
    let mut parts = Parts {
        count: 3,
        waiting: 1,
    };
    assert_eq!(rt; either(&mut cells, &mut parts), Ok(1));
    assert_eq!(rt; cells.book.writes.as_slice(), [(1, 9)].as_slice());
    assert_eq!(rt; cells.notes.len(), 2);
    assert_eq!(rt; cells.saved.len(), 0);
    Ok(())
}

#[test]
fn blocks_and_alternatives_nest(rt: HostRuntime) -> Result<(), Fail> {
    let mut cells = three(&rt)?;
    let mut block = Block {
        inner: fails_with_five(),
    };
    assert_eq!(rt;
        nested(&mut cells, &mut block),
        Ok(Nested::Kept(Nested::Failed { code: 5 }))
    );
    let parts = Parts {
        count: 2,
        waiting: 2,
    };
    let mut first = First { parts };
    assert_eq!(rt; nested(&mut cells, &mut first), Err(Cause::Retry));
    assert_eq!(rt; cells.book.writes.len(), 0);
    assert_eq!(rt; cells.notes.len(), 2);
    assert_eq!(rt; cells.saved.len(), 0);
    Ok(())
}
