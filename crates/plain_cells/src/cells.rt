//! Cells over a plain heap.
ghost use Rattle.std.specs.Prelude.{◌≡◌, ◌+◌, ◌<◌, ◌≤◌, ◌^◌, None, Option, Some, [], ◌∷◌, length, map, slice_index, vec_capacity, refl, IfOk, IfSome};
ghost use Rattle.std.proofs.Common.{◌∙◌, subst, sym};
ghost use Rattle.std.proofs.Math.Logic.{∥∥₁_map};
ghost use Rattle.std.proofs.lemmas.List.{length-map};
ghost use Rattle.stm_model.specs.CellsState.{CellsState, empty_book};
ghost use Rattle.stm_model.specs.Heap.{Agrees, AreWords, over};
ghost use Rattle.stm_model.specs.Refusing.{IsOfCells, deepest};
ghost use Rattle.plain_cells.specs.Book.{HasRoom, book_of};
ghost use Rattle.plain_cells.specs.Levels.{Nest, Nest-prop, WriteWords, WriteWords-prop};
ghost use Rattle.plain_cells.specs.Facts.{Agrees-prop, AreWords-prop, IsAnswer-prop, witness_of};

use crate::PlainBook;
use crate::book::{add_hook, buffered, noted, put_write, undo_hooks};
use std::alloc::Global;
use stm_model::{Addr, Cause, Cells, DEEPEST, HookPhase, Law, Memory, Note};

/// Cells over a heap that nobody else changes.
#[derive(Drop)]
pub struct PlainCells<L: Law + Drop> {
    alloc: Global,
    pub law: L,
    /// The heap that is read. Writes stay in the book.
    pub heap: Vec<u64>,
    pub notes: Vec<Note>,
    /// What is written and registered, and which handlers have run.
    pub book: PlainBook,
    /// The book as it was where each open level began, the innermost first.
    pub saved: Vec<PlainBook>,
    /// What was answered in place of a success.
    pub cause: Option<Cause>,
    ghost short: { length heap.items < 2 ^ 32 },
    ghost words: { AreWords heap.items } by { AreWords-prop heap.items },
    ghost keeps_law: { ∥ L.lawful law heap.items ∥₁ },
    ghost agrees: { Agrees notes.items heap.items } by { Agrees-prop notes.items heap.items },
    ghost room: { HasRoom book },
    ghost depth: { length saved.items ≤ deepest },
    ghost nested: { Nest (length book.hooks.items) saved.items } by { Nest-prop (length book.hooks.items) saved.items },
    ghost written: { WriteWords (book ∷ saved.items) } by { WriteWords-prop (book ∷ saved.items) },
    ghost answer: { IfSome cause IsOfCells } by { IsAnswer-prop cause },
}

/// Keeps the cause that is answered from now on, and gives it.
fn refuse(kept: &mut Option<Cause>, cause: Cause) -> Cause
    ensures kept { kept.new ≡ Some cause }
    ensures gives { result ≡ cause }
{
    *kept = Some(cause);
    cause
}

impl<L: Law + Drop> PlainCells<L> {
    /// Cells that nobody has read or written yet. Takes no memory.
    pub fn new(alloc: Global, law: L, heap: Vec<u64>) -> PlainCells<L>
        requires size { length heap.items < 2 ^ 32 }
        requires lawful { L.lawful law heap.items }
        ensures law { result.law ≡ law }
        ensures heap { result.heap ≡ heap }
        ensures notes { result.notes.items ≡ [] }
        ensures book { book_of result.book ≡ empty_book }
        ensures saved { result.saved.items ≡ [] }
        ensures cause { result.cause ≡ None }
    {
        PlainCells {
            alloc,
            law,
            heap,
            notes: Vec::new(alloc),
            book: PlainBook::new(alloc),
            saved: Vec::new(alloc),
            cause: None,
        }
    }

    /// The value of a cell under the writes.
    pub fn value(&self, addr: Addr) -> u64
        requires { addr.0 < length self.now.heap.items }
        ensures { result ≡ slice_index (over self.now.heap.items self.now.book.writes.items) addr.0 }
    {
        match buffered(self.book.writes.as_slice(), addr.0) {
            Some(value) => value,
            None => self.heap[addr.0 as usize],
        }
    }

    /// The heap with the writes put in.
    pub fn written_heap(&self) -> Result<Vec<u64>, Memory>
        ensures { IfOk result (λ heap. heap.items ≡ over self.now.heap.items self.now.book.writes.items) }
    {
        let mut heap = Vec::with_capacity(self.alloc, self.heap.len())?;
        for i in 0..self.heap.len() {
            heap.push(self.value(Addr(i as u32)))?;
        }
        Ok(heap)
    }
}

impl<L: Law + Drop> Cells<L> for PlainCells<L> {
    ghost law = { λ cells. cells.law };

    ghost state = { λ cells. record {
      size = length cells.heap.items;
      reads = cells.notes.items;
      now = book_of cells.book;
      saved = map book_of cells.saved.items;
      cause = cells.cause;
    } };

    ghost follows = { λ before after. (after.heap ≡ before.heap) × (after.law ≡ before.law) };

    ghost follows_refl = { λ cells. (refl, refl) };

    ghost follows_trans = { λ first second third one two. (two.0 ∙ one.0, two.1 ∙ one.1) };

    ghost witness = { λ cells. ∥∥₁_map cells.keeps_law (witness_of _ cells.heap.items cells.notes.items cells.words cells.agrees) };

    ghost words = { λ cells. cells.written.0 };

    ghost answered = { λ cells. cells.answer };

    ghost deep = { λ cells. subst (λ levels. levels ≤ deepest) (sym (length-map cells.saved.items book_of)) cells.depth };

    fn size(&self) -> u32 {
        self.heap.len() as u32
    }

    fn get(&mut self, addr: Addr) -> Result<u64, Cause> {
        if let Some(cause) = self.cause {
            return Err(cause);
        }
        if let Some(value) = buffered(self.book.writes.as_slice(), addr.0) {
            return Ok(value);
        }
        if let Some(value) = noted(self.notes.as_slice(), addr.0) {
            return Ok(value);
        }
        let value = self.heap[addr.0 as usize];
        let note = Note {
            addr,
            version: 0,
            value,
        };
        if let Err(_) = self.notes.push(note) {
            return Err(refuse(&mut self.cause, Cause::Memory));
        }
        Ok(value)
    }

    fn set(&mut self, addr: Addr, value: u64) -> Result<(), Cause> {
        if let Some(cause) = self.cause {
            return Err(cause);
        }
        if let Err(Memory) = put_write(&mut self.book.writes, addr.0, value) {
            return Err(refuse(&mut self.cause, Cause::Memory));
        }
        Ok(())
    }

    fn enter(&mut self) -> Result<(), Cause> {
        if let Some(cause) = self.cause {
            return Err(cause);
        }
        if self.saved.len() >= DEEPEST as usize {
            let cause = Cause::TooDeep { depth: DEEPEST };
            return Err(refuse(&mut self.cause, cause));
        }
        let Ok(book) = self.book.copy(self.alloc) else {
            return Err(refuse(&mut self.cause, Cause::Memory));
        };
        if let Err(_) = self.saved.insert(0, book) {
            return Err(refuse(&mut self.cause, Cause::Memory));
        }
        Ok(())
    }

    fn keep(&mut self) {
        let _ = self.saved.remove(0);
    }

    fn undo(&mut self) {
        let former = self.saved.remove(0);
        if self.cause.is_none() {
            undo_hooks(&mut self.book, former.hooks.len());
            self.book.writes = former.writes;
            self.book.hooks = former.hooks;
            self.book.laters = former.laters;
        }
    }

    fn hook(&mut self, phase: HookPhase, token: u64) -> Result<(), Cause> {
        if let Some(cause) = self.cause {
            return Err(cause);
        }
        if let Err(Memory) = add_hook(&mut self.book, phase, token) {
            return Err(refuse(&mut self.cause, Cause::Memory));
        }
        Ok(())
    }

    fn later(&mut self, token: u64) -> Result<(), Cause> {
        if let Some(cause) = self.cause {
            return Err(cause);
        }
        if let Err(_) = self.book.laters.push(token) {
            return Err(refuse(&mut self.cause, Cause::Memory));
        }
        Ok(())
    }
}
