//! Each call of a list once.
use std::test::Fail;
use stm_model::{Pairs, Series, Values, Words};

#[test]
fn a_series_gives_back_what_was_pushed(rt: HostRuntime) -> Result<(), Fail> {
    let mut inner = Words::new(rt.alloc());
    inner.push(7)?;
    let mut series = Series::new(rt.alloc());
    assert_eq!(rt; series.len(), 0);
    series.push(inner)?;
    series.push(Words::new(rt.alloc()))?;
    assert_eq!(rt; series.len(), 2);
    assert_eq!(rt; series.at(0).as_slice(), [7].as_slice());
    assert_eq!(rt; series.as_slice().len(), 2);
    let entries: Vec<Words> = series.into();
    assert_eq!(rt; entries.len(), 2);
    assert_eq!(rt; Series::from(entries).len(), 2);
    Ok(())
}

#[test]
fn values_are_copied_and_turned_into_a_vector(rt: HostRuntime) -> Result<(), Fail> {
    let mut values: Values<(u32, u64)> = Values::new(rt.alloc());
    values.push((3, 30))?;
    values.push((4, 40))?;
    assert_eq!(rt; values.len(), 2);
    assert_eq!(rt; values.at(1), (4, 40));
    let copy = values.copy()?;
    let entries: Vec<(u32, u64)> = values.into();
    assert_eq!(rt; entries.as_slice(), [(3, 30), (4, 40)].as_slice());
    assert_eq!(rt; copy.as_slice(), entries.as_slice());
    assert_eq!(rt; Values::from(entries).len(), 2);
    Ok(())
}

#[test]
fn pairs_stand_by_their_keys(rt: HostRuntime) -> Result<(), Fail> {
    let mut pairs = Pairs::new(rt.alloc());
    pairs.push((1, 10))?;
    pairs.push((5, 50))?;
    assert_eq!(rt; pairs.len(), 2);
    assert_eq!(rt; pairs.at(1), (5, 50));
    let copy = pairs.copy()?;
    assert_eq!(rt; copy.as_slice(), [(1, 10), (5, 50)].as_slice());
    let entries: Vec<(u64, u64)> = pairs.into();
    assert_eq!(rt; Pairs::from_vec(entries).len(), 2);
    Ok(())
}
