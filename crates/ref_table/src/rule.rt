//! What the table keeps, how seats are cut and joined, and what a step tells.
use atomic_table::{Join, Play, Split, TableRule};
use std::marker::{Brand, Model, PhantomData};
use std::snapshot::Snapshot;
use stm_model::{Law, Settings};

/// What a seat knows. No value of it is made.
pub struct Held {
    settings: Settings,
}

impl Model for Held {
    ghost use Rattle.ref_table.specs.Knowledge.{Knowledge, opening_knowledge};

    ghost Value = { Knowledge };

    ghost view = { λ held. opening_knowledge held.settings };
}

/// What the rule reads.
#[derive(Drop)]
pub struct Key<L> {
    pub law: Snapshot<L>,
    pub opening: Snapshot<Vec<u64>>,
    pub settings: Settings,
}

/// The rule of the table.
pub struct StmRule<L> {
    law: PhantomData<L>,
}

impl<L: Law> TableRule<(), Held, Key<L>> for StmRule<L> {
    ghost use Rattle.ref_table.specs.Keyed.{KeptBy};
    ghost use Rattle.ref_table.specs.Knowledge.{opening_knowledge};

    ghost holds = { KeptBy L.lawful L.may };

    ghost first = { λ key. opening_knowledge key.settings };
}

/// What a step tells, of the word that it announces and of what the seat knows before and after. A call
/// at `Brand` picks it.
pub trait Told {
    ghost use Rattle.std.specs.Prelude.{ℕ};
    ghost use Rattle.ref_table.specs.Knowledge.{Knowledge};

    ghost told: { ℕ → Knowledge → Knowledge → Type 0 };
}

impl Told for Brand {
    ghost told = { λ _ _ _. Unit {0} };
}

/// A step that tells this.
pub struct Does<J> {
    told: PhantomData<J>,
}

impl<J: Told> Play<(), Held> for Does<J> {
    ghost use Rattle.std.specs.Prelude.{◌≡◌};

    ghost then = { λ _ before found after. J.told found before.0 after.0 × (after.1 ≡ before.1) };
}

/// A caller's seat is cut off the maker's.
pub struct Deal;

impl Split<Held> for Deal {
    ghost use Rattle.ref_table.specs.Parts.{after_deal, dealt};

    ghost left = { after_deal };

    ghost right = { dealt };
}

/// A mark is cut off a caller's seat, which keeps all that it knows.
pub struct Copied;

impl Split<Held> for Copied {
    ghost use Rattle.ref_table.specs.Parts.{marked};

    ghost left = { λ seat. seat };

    ghost right = { marked };
}

/// A caller heeds a mark.
pub struct Heeds;

impl Join<Held> for Heeds {
    ghost use Rattle.ref_table.specs.Parts.{after_heed, spent};

    ghost both = { after_heed };

    ghost spent = { spent };
}

/// The maker gathers a caller's seat.
pub struct Gathers;

impl Join<Held> for Gathers {
    ghost use Rattle.ref_table.specs.Parts.{after_gather, spent};

    ghost both = { after_gather };

    ghost spent = { spent };
}
