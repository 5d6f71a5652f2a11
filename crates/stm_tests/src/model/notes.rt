//! A vector of notes as notes.
use std::test::Fail;
use stm_model::{Addr, Note, Notes};

// The value of the last note.
fn last_value<N: Notes>(notes: &N) -> Option<u64> {
    let count = notes.len();
    if count == 0 {
        None
    } else {
        Some(notes.at(count - 1).value)
    }
}

#[test]
fn a_vector_of_notes_is_their_list(rt: HostRuntime) -> Result<(), Fail> {
    let mut notes = Vec::new(rt.alloc());
    assert_eq!(rt; last_value(&notes), None);
    for (number, value) in [(4, 40), (2, 20)] {
        notes.push(Note {
            addr: Addr(number),
            version: 1,
            value,
        })?;
    }
    assert_eq!(rt; last_value(&notes), Some(20));
    Ok(())
}
