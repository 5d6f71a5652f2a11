//! Many addresses of all chains, and some of one chain.
use crate::CellIndex;
use std::alloc::AllocError;
use std::test::Fail;

// Puts so many addresses at the end, each this far from the one before it.
fn fill(index: &mut CellIndex, count: u32, step: u32) -> Result<(), AllocError> {
    for number in 0..count {
        index.reserve(index.len().saturating_add(33))?;
        index.push(number.wrapping_mul(step));
    }
    Ok(())
}

#[test]
fn many_addresses_are_found_and_dropped(rt: HostRuntime) -> Result<(), Fail> {
    let mut index = CellIndex::new(rt.alloc());
    assert_eq!(rt; index.find(0), None);
    fill(&mut index, 100_000, 3)?;
    assert_eq!(rt; index.len(), 100_000);
    for number in 0..100_000 {
        assert_eq!(rt; index.find(number * 3), Some(number as usize));
    }
    assert_eq!(rt; index.find(1), None);
    index.truncate(1_000);
    assert_eq!(rt; index.find(2_997), Some(999));
    assert_eq!(rt; index.find(3_000), None);
    index.truncate(0);
    assert_eq!(rt; index.find(0), None);
    Ok(())
}

#[test]
fn addresses_of_one_chain_are_told_apart(rt: HostRuntime) -> Result<(), Fail> {
    let mut index = CellIndex::new(rt.alloc());
    fill(&mut index, 100, 256)?;
    assert_eq!(rt; index.find(0), Some(0));
    assert_eq!(rt; index.find(99 * 256), Some(99));
    assert_eq!(rt; index.find(100 * 256), None);
    index.truncate(50);
    assert_eq!(rt; index.find(49 * 256), Some(49));
    assert_eq!(rt; index.find(50 * 256), None);
    Ok(())
}
