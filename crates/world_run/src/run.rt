//! Whole attempts of one caller, nobody else moving.
ghost use Rattle.std.specs.Prelude.{◌≡◌, ◌++◌, ◌∷◌, [], List, IfNone, IfOk, IfSome, IsSome, IsTrue, OnErr, OnOk, length};
ghost use Rattle.std.specs.List.{All};
ghost use Rattle.stm_core.specs.Machine.{next_of};
ghost use Rattle.stm_model.specs.World.{IsCaller};
ghost use Rattle.stm_model.specs.declared.access.Ask.{Ask};
ghost use Rattle.stm_model.specs.declared.access.Ask.TheVariants.{Finish};
ghost use Rattle.world_run.specs.Simulation.{HasSameTerms, Invariant, IsAlwaysTaken, IsOver, IsToDecide, MayBegin, attempt_in, machine_at, replies, terms_in};
ghost use Rattle.world_run.specs.Going.{BodyGoes, ComesThrough, Finishes, GoesAlong, GoesOn, IsClosing, IsDriven, IsEnding, MeetsOwedBy, Pauses, told_ending};
ghost use Rattle.world_run.specs.Run.{AsksMeetOwed, ClosesOpen, HasEnded, Runs};

use crate::simulation::Simulation;
use stm_core::{Next, Reply};
use stm_model::{Ask, Ending, Law, Memory};

impl<L: Law + Drop> Simulation<L> {
    /// Makes a caller's next attempt as a whole, nobody else moving, and gives its ending. It begins, is asked
    /// for each of these in turn and then to finish, unless it is over before, and after each ask it goes on
    /// until it replies. No ask closes a level that none of them opened, and what is written has to meet what is
    /// owed, whatever is read. Who was refused something opens no level after it, so where the next ask closes one
    /// and none is left, it is asked to finish at once, which rolls it back. Where no attempt may begin there is
    /// none, and nothing changes. A before-commit body that has its turn asks for nothing and is over at once, and a
    /// handler that is due counts as run. It may be out of memory for the exchange of the clock alone; the attempt
    /// stands before it then.
    pub fn run_attempt(&mut self, caller: u16, asks: &[Ask]) -> Result<Option<Ending>, Memory>
        requires caller { IsCaller (terms_in self.old) caller }
        requires asks { All (IsAlwaysTaken (length self.old.opening)) asks.now }
        requires levels { ClosesOpen 0 asks.now }
        requires owed { AsksMeetOwed (L.lawful self.old.law) (L.may self.old.law) (length self.old.opening) [] [] (asks.now ++ Finish ∷ []) }
        ensures runs { Runs L.lawful L.may self.old caller asks.now self.new }
        ensures ends { IfOk result (λ made. IfSome made (HasEnded L.lawful L.may self.old caller self.new)) }
        ensures begins { MayBegin self.old caller → IfOk result IsSome }
        ensures stays { IfOk result (λ made. IfNone made (self.new ≡ self.old)) }
        ensures wants { OnErr result (IsToDecide (next_of (attempt_in self.new caller))) }
    {
        if !self.begin(caller) {
            return Ok(None);
        }
        self.run_body(caller, asks)
    }

    // A caller's attempt goes on, is asked for each of these and then to finish, and goes on until it is over.
    fn run_body(&mut self, caller: u16, asks: &[Ask]) -> Result<Option<Ending>, Memory>
        requires caller { IsCaller (terms_in self.old) caller }
        requires asks { All (IsAlwaysTaken (length self.old.opening)) asks.now }
        requires driven { IsDriven (attempt_in self.old caller) }
        requires owed { MeetsOwedBy L.lawful L.may self.old caller (asks.now ++ Finish ∷ []) }
        ensures body { BodyGoes L.lawful L.may self.old caller asks.now self.new }
        ensures over { OnOk result (IsOver (attempt_in self.new caller)) }
        ensures ends { IfOk result (λ made. made ≡ (attempt_in self.new caller).ending) }
        ensures made { IsSome (machine_at self.old caller) → IfOk result IsSome }
        ensures wants { OnErr result (IsToDecide (next_of (attempt_in self.new caller))) }
    {
        self.go_on(caller)?;
        self.ask_all(caller, asks)?;
        self.finish(caller)?;
        Ok(self.ending(caller))
    }

    // Whether a caller's attempt does nothing by itself.
    fn replies(&self, caller: u16) -> bool
        requires { IsCaller (terms_in self.now) caller }
        ensures told { result ≡ replies (next_of (attempt_in self.now caller)) }
        ensures invariant { Invariant L.lawful L.may self.now }
    {
        only_replies(self.next(caller))
    }

    // A caller's attempt goes on by itself until it replies.
    fn settle(&mut self, caller: u16) -> Result<(), Memory>
        requires caller { IsCaller (terms_in self.old) caller }
        requires owed { (asks : List Ask) × MeetsOwedBy L.lawful L.may self.old caller asks }
        ensures goes { GoesOn L.lawful L.may self.old caller [] self.new }
        ensures replies { OnOk result (IsTrue (replies (next_of (attempt_in self.new caller)))) }
        ensures stays { IsTrue (replies (next_of (attempt_in self.old caller))) → self.new ≡ self.old }
        ensures wants { OnErr result (IsToDecide (next_of (attempt_in self.new caller))) }
    {
        while !self.replies(caller) {
            self.advance(caller)?;
        }
        Ok(())
    }

    // A caller's attempt goes on until its own body waits to ask, or it is over. A before-commit body that has its
    // turn is over at once.
    fn go_on(&mut self, caller: u16) -> Result<(), Memory>
        requires caller { IsCaller (terms_in self.old) caller }
        requires driven { IsDriven (attempt_in self.old caller) }
        requires owed { (asks : List Ask) × MeetsOwedBy L.lawful L.may self.old caller asks }
        ensures goes { GoesOn L.lawful L.may self.old caller [] self.new }
        ensures pauses { OnOk result (Pauses (attempt_in self.new caller)) }
        ensures wants { OnErr result (IsToDecide (next_of (attempt_in self.new caller))) }
    {
        self.settle(caller)?;
        while self.end_late(caller) {
            self.settle(caller)?;
        }
        Ok(())
    }

    // A caller's attempt is asked for each of these, and goes on after it, unless it is over before, or was refused
    // something and can't close a level.
    fn ask_all(&mut self, caller: u16, asks: &[Ask]) -> Result<(), Memory>
        requires caller { IsCaller (terms_in self.old) caller }
        requires asks { All (IsAlwaysTaken (length self.old.opening)) asks.now }
        requires pauses { Pauses (attempt_in self.old caller) }
        requires owed { MeetsOwedBy L.lawful L.may self.old caller (asks.now ++ Finish ∷ []) }
        ensures along { GoesAlong L.lawful L.may self.old caller asks.now self.new }
        ensures through { OnOk result (ComesThrough L.lawful L.may self.old caller asks.now self.new) }
        ensures pauses { OnOk result (Pauses (attempt_in self.new caller)) }
        ensures wants { OnErr result (IsToDecide (next_of (attempt_in self.new caller))) }
    {
        for &ask in asks {
            if !self.waits(caller) {
                return Ok(());
            }
            if !self.ask(caller, ask) {
                return Ok(());
            }
            self.go_on(caller)?;
        }
        Ok(())
    }

    // A caller's attempt is asked to finish, unless it is over.
    fn ask_to_finish(&mut self, caller: u16)
        requires caller { IsCaller (terms_in self.old) caller }
        requires pauses { Pauses (attempt_in self.old caller) }
        ensures goes { Finishes L.lawful L.may self.old caller self.new }
        ensures ending { IsEnding (attempt_in self.new caller) }
        ensures driven { IsDriven (attempt_in self.new caller) }
        ensures terms { HasSameTerms self.old self.new }
    {
        if !self.waits(caller) {
            return;
        }
        self.ask(caller, Ask::Finish);
    }

    // A caller's attempt is asked to finish, unless it is over, and goes on until it is.
    fn finish(&mut self, caller: u16) -> Result<(), Memory>
        requires caller { IsCaller (terms_in self.old) caller }
        requires pauses { Pauses (attempt_in self.old caller) }
        requires owed { MeetsOwedBy L.lawful L.may self.old caller (Finish ∷ []) }
        ensures goes { Finishes L.lawful L.may self.old caller self.new }
        ensures closing { IsClosing (attempt_in self.new caller).stage }
        ensures over { OnOk result (IsOver (attempt_in self.new caller)) }
        ensures wants { OnErr result (IsToDecide (next_of (attempt_in self.new caller))) }
    {
        self.ask_to_finish(caller);
        self.go_on(caller)
    }

    // How a caller's attempt ended.
    fn ending(&self, caller: u16) -> Option<Ending>
        requires caller { IsCaller (terms_in self.now) caller }
        requires over { IsOver (attempt_in self.now caller) }
        ensures ending { result ≡ (attempt_in self.now caller).ending }
        ensures told { IsSome (machine_at self.now caller) → IsSome result }
    {
        ending_in(self.next(caller))
    }
}

// Whether this is a reply, or nothing comes next.
fn only_replies(next: Option<Next>) -> bool
    ensures { result ≡ replies next }
{
    matches!(next, None | Some(Next::Before { .. } | Next::Reply(_)))
}

// The ending that a reply tells.
fn ending_in(next: Option<Next>) -> Option<Ending>
    ensures { result ≡ told_ending next }
{
    match next {
        Some(Next::Reply(Reply::Ended(ending))) => Some(ending),
        _ => None,
    }
}
