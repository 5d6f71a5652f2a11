//! What has happened in an attempt, in proofs alone.
ghost use Rattle.std.specs.Prelude.{◌≡◌, ◌++◌, ◌∷◌, []};
ghost use Rattle.stm_core.specs.Past.{book_of, books_in, rings_in, runs_in};
ghost use Rattle.stm_model.specs.CellsState.{outer};

use lifecycle::Handlers;
use std::snapshot::Snapshot;
use stm_model::{Addr, HookPhase};
use write_buffer::WriteBuffer;

/// One thing after another. It takes no memory, since of what came before the last it keeps what proofs see.
#[derive(Drop)]
pub enum Past {
    Nothing,
    /// Who waited for a cell was woken.
    Rang {
        earlier: Snapshot<Past>,
        addr: Addr,
    },
    /// A handler was run.
    Ran {
        earlier: Snapshot<Past>,
        phase: HookPhase,
        token: u64,
    },
    /// A level was entered, where this was written and registered.
    Entered {
        earlier: Snapshot<Past>,
        writes: Snapshot<WriteBuffer>,
        handlers: Snapshot<Handlers>,
    },
    /// The innermost level was closed.
    Left {
        earlier: Snapshot<Past>,
    },
}

#[tactic(auto, unfolding(crate::specs::Past::books_in, crate::specs::Past::rings_in, crate::specs::Past::runs_in))]
impl Past {
    /// A cell was rung for.
    pub fn ring(&mut self, addr: Addr)
        ensures rings { rings_in self.new ≡ rings_in self.old ++ addr.0 ∷ [] }
        ensures runs { runs_in self.new ≡ runs_in self.old }
        ensures books { books_in self.new ≡ books_in self.old }
    {
        *self = Past::Rang {
            earlier: Snapshot::of(self),
            addr,
        };
    }

    /// A handler was run.
    pub fn run(&mut self, phase: HookPhase, token: u64)
        ensures rings { rings_in self.new ≡ rings_in self.old }
        ensures runs { runs_in self.new ≡ runs_in self.old ++ (phase, token) ∷ [] }
        ensures books { books_in self.new ≡ books_in self.old }
    {
        *self = Past::Ran {
            earlier: Snapshot::of(self),
            phase,
            token,
        };
    }

    /// A level was entered.
    pub fn enter(&mut self, writes: &WriteBuffer, handlers: &Handlers)
        ensures rings { rings_in self.new ≡ rings_in self.old }
        ensures runs { runs_in self.new ≡ runs_in self.old }
        ensures books { books_in self.new ≡ book_of writes.now handlers.now (runs_in self.old) ∷ books_in self.old }
    {
        *self = Past::Entered {
            earlier: Snapshot::of(self),
            writes: Snapshot::of(writes),
            handlers: Snapshot::of(handlers),
        };
    }

    /// The innermost level was closed.
    pub fn leave(&mut self)
        ensures rings { rings_in self.new ≡ rings_in self.old }
        ensures runs { runs_in self.new ≡ runs_in self.old }
        ensures books { books_in self.new ≡ outer (books_in self.old) }
    {
        *self = Past::Left {
            earlier: Snapshot::of(self),
        };
    }
}
