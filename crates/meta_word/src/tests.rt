//! The four calls at the bounds of the fields.
use crate::{
    MAX_OWNER, MAX_SERIAL, MAX_VERSION, Meta, Phase, TxnStatus, pack_meta, pack_status,
    unpack_meta, unpack_status,
};
use std::test::Fail;

#[test]
fn each_field_of_a_metadata_word_has_its_bits(rt: HostRuntime) -> Result<(), Fail> {
    let free = Meta {
        changing: false,
        pending: false,
        owner: 0,
        version: 0,
    };
    let table = [
        (0, free),
        (1, Meta { version: 1, ..free }),
        (
            2_251_799_813_685_247,
            Meta {
                version: MAX_VERSION,
                ..free
            },
        ),
        (1 << 51, Meta { owner: 1, ..free }),
        (
            2_047 << 51,
            Meta {
                owner: MAX_OWNER,
                ..free
            },
        ),
        (
            1 << 62,
            Meta {
                pending: true,
                ..free
            },
        ),
        (
            1 << 63,
            Meta {
                changing: true,
                ..free
            },
        ),
        (
            u64::MAX,
            Meta {
                changing: true,
                pending: true,
                owner: 2_047,
                version: MAX_VERSION,
            },
        ),
    ];
    for (word, meta) in table {
        let fields = unpack_meta(word);
        assert_eq!(rt; fields, meta);
        assert_eq!(rt; pack_meta(fields), word);
    }
    Ok(())
}

#[test]
fn each_phase_has_its_number_below_the_serial(rt: HostRuntime) -> Result<(), Fail> {
    let table = [
        (0, 0, Phase::Idle),
        (5, 1, Phase::Active),
        (6, 1, Phase::Preparing),
        (7, 1, Phase::Doomed),
        (u64::MAX - 3, MAX_SERIAL, Phase::Idle),
        (u64::MAX, 4_611_686_018_427_387_903, Phase::Doomed),
    ];
    for (word, serial, phase) in table {
        let fields = unpack_status(word);
        assert_eq!(rt; fields, TxnStatus { serial, phase });
        assert_eq!(rt; pack_status(fields), word);
    }
    Ok(())
}

#[test]
fn a_word_says_what_others_do_with_the_cell(rt: HostRuntime) -> Result<(), Fail> {
    let word = |changing, owner| Meta {
        changing,
        pending: false,
        owner,
        version: 4,
    };
    let table = [
        // owned by another, changing by another, still at version 4
        (word(false, 0), false, false, true),
        (word(true, 7), false, false, true),
        (word(false, 8), true, false, true),
        (word(true, 8), true, true, false),
    ];
    for (meta, owned, changing, still) in table {
        assert_eq!(rt; meta.is_owned_by_another(7), owned);
        assert_eq!(rt; meta.is_changing_by_another(7), changing);
        assert_eq!(rt; meta.still_has(7, 4), still);
        assert_eq!(rt; meta.still_has(7, 3), false);
    }
    Ok(())
}
