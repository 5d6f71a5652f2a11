//! The law of tries.
ghost use Rattle.trie_law.specs.Law.{IsLawful, MayBecome};
ghost use Rattle.trie_law.specs.LawFacts.{may_go_on, may_stay};

use stm_model::{Law, Layout};

/// The law of maps and snapshots in the cells of a layout.
#[derive(Clone, Copy, Debug, PartialEq, Eq, Drop)]
pub struct TrieLaw {
    pub layout: Layout,
}

impl Law for TrieLaw {
    ghost lawful = { λ law heap. IsLawful law.layout heap };

    ghost may = { λ law before after. MayBecome law.layout before after };

    ghost may_refl = { λ law heap lawful. may_stay law.layout heap };

    ghost may_trans = { λ law first second third is _ _ one two. may_go_on law.layout first second third is one two };
}
