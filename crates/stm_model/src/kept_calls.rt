//! Handlers' runs and rings as lists, in memory that was taken beforehand.
ghost use Rattle.std.specs.Prelude.{◌≡◌, ◌≤◌, [], false, length, vec_capacity, IfOk};
ghost use Rattle.std.specs.Option.{option_copied};
ghost use Rattle.stm_model.specs.Calls.{TellsNext, after_call};
ghost use Rattle.stm_model.specs.KeptCalls.{no_calls, told};

use crate::{Addr, Bell, HookPhase, Hooks, Memory};
use std::alloc::Global;
use std::marker::Model;

/// A list with room for so many entries.
#[derive(Debug, Drop)]
struct Roomy<T> {
    entries: Vec<T>,
    room: usize,
    /// An entry came when the room was used up.
    overrun: bool,
    ghost within: { length entries.items ≤ room },
    ghost reserved: { room ≤ vec_capacity entries },
}

impl<T: Copy> Roomy<T> {
    fn new(alloc: Global, room: usize) -> Result<Roomy<T>, Memory>
        ensures empty { IfOk result (λ list. list.entries.items ≡ []) }
        ensures room { IfOk result (λ list. list.room ≡ room) }
        ensures within_room { IfOk result (λ list. list.overrun ≡ false) }
    {
        Ok(Roomy {
            entries: Vec::with_capacity(alloc, room)?,
            room,
            overrun: false,
        })
    }

    /// Takes no memory.
    fn push(&mut self, entry: T)
        ensures room { self.new.room ≡ self.old.room }
        ensures list { told self.new.overrun self.new.entries.items ≡
            after_call self.old.room (told self.old.overrun self.old.entries.items) entry }
    {
        if self.entries.len() < self.room {
            self.entries.push(entry).unwrap();
        } else {
            self.overrun = true;
        }
    }

    fn as_slice(&self) -> Option<&[T]>
        ensures { option_copied result ≡ told self.now.overrun self.now.entries.items }
    {
        if self.overrun {
            None
        } else {
            Some(self.entries.as_slice())
        }
    }
}

/// Keeps runs and rings, as many of each as it was made for. A run too many ends its list of runs, and
/// a ring too many its list of rings.
#[derive(Debug, Drop)]
pub struct KeptCalls {
    runs: Roomy<(HookPhase, u64)>,
    rings: Roomy<u64>,
}

impl Model for KeptCalls {
    ghost use Rattle.stm_model.specs.KeptCalls.{CallLists, told};

    ghost Value = { CallLists };

    ghost view = { λ k. record {
      runs = told k.runs.overrun k.runs.entries.items;
      run_room = k.runs.room;
      rings = told k.rings.overrun k.rings.entries.items;
      ring_room = k.rings.room;
    } };
}

impl KeptCalls {
    /// Takes memory for so many runs and so many rings. No later call takes any.
    pub fn new(alloc: Global, runs: usize, rings: usize) -> Result<KeptCalls, Memory>
        ensures { IfOk result (λ kept. kept ≡ no_calls runs rings) }
    {
        Ok(KeptCalls {
            runs: Roomy::new(alloc, runs)?,
            rings: Roomy::new(alloc, rings)?,
        })
    }

    /// The runs, each with its phase and its token. None once there was one too many.
    pub fn runs(&self) -> Option<&[(HookPhase, u64)]>
        ensures { option_copied result ≡ self.now.runs }
    {
        self.runs.as_slice()
    }

    /// The numbers of the cells rung for. None once there was one too many.
    pub fn rings(&self) -> Option<&[u64]>
        ensures { option_copied result ≡ self.now.rings }
    {
        self.rings.as_slice()
    }
}

impl Hooks for KeptCalls {
    ghost runs = { λ kept. kept.runs };

    fn run(&mut self, phase: HookPhase, token: u64)
        ensures next { TellsNext self.old.runs self.new.runs (phase, token) }
        ensures kept { self.new ≡ record self.old { runs = after_call self.old.run_room self.old.runs (phase, token) } }
    {
        self.runs.push((phase, token));
    }
}

impl Bell for KeptCalls {
    ghost rings = { λ kept. kept.rings };

    fn ring(&mut self, addr: Addr)
        ensures next { TellsNext self.old.rings self.new.rings addr.0 }
        ensures kept { self.new ≡ record self.old { rings = after_call self.old.ring_room self.old.rings addr.0 } }
    {
        self.rings.push(u64::from(addr.0));
    }
}
