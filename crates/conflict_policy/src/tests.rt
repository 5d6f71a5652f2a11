//! The move by its table.
use crate::{Move, next_move};
use meta_word::{Meta, Policy};
use std::test::Fail;

#[test]
fn each_move_comes_by_the_policy(rt: HostRuntime) -> Result<(), Fail> {
    let owned_by = |owner| Meta {
        changing: false,
        pending: false,
        owner,
        version: 3,
    };
    let table = [
        // policy, rounds done, doom tried, owner, move of caller 7
        (Policy::GiveWay, 1, false, 8, Move::GiveWay),
        (Policy::Look(2), 2, false, 8, Move::Again),
        (Policy::Look(2), 3, false, 8, Move::GiveWay),
        (Policy::Doom(0), 1, false, 8, Move::TryDoom { owner: 8 }),
        (Policy::Doom(0), 1, true, 8, Move::GiveWay),
        (Policy::Doom(1), 1, false, 7, Move::Again),
        (Policy::Doom(1), 2, false, 0, Move::GiveWay),
    ];
    for (policy, rounds_done, doom_tried, owner, expected) in table {
        assert_eq!(rt;
            next_move(policy, rounds_done, doom_tried, owned_by(owner), 7),
            expected
        );
    }
    Ok(())
}
