//! What is written and registered, kept in plain lists.
ghost use Rattle.std.specs.Prelude.{◌≡◌, ◌≢◌, ◌+◌, ◌≤◌, [], ◌∷◌, ◌++◌, drop, length, nat_eq, vec_capacity, IfOk, MatchOption, OnErr, OnOk};
ghost use Rattle.std.specs.List.{All, Any};
ghost use Rattle.std.specs.Map.{lookup};
ghost use Rattle.stm_model.specs.CellsState.{empty_book, hooked};
ghost use Rattle.stm_model.specs.Handlers.{is_undoing, undoing};
ghost use Rattle.stm_model.specs.Heap.{put};
ghost use Rattle.plain_cells.specs.Book.{HasRoom, book_of};

use std::alloc::Global;
use stm_model::{HookPhase, Memory, Note};

/// A book: the writes, at most one of each cell, the handlers and the before-commit bodies by their tokens,
/// and the handlers that have run where something was undone.
#[derive(Debug, Drop)]
pub struct PlainBook {
    pub writes: Vec<(u32, u64)>,
    pub hooks: Vec<(HookPhase, u64)>,
    pub laters: Vec<u64>,
    pub runs: Vec<(HookPhase, u64)>,
}

impl PlainBook {
    ghost use Rattle.stm_model.specs.CellsState.{empty_book};
    ghost use Rattle.plain_cells.specs.Book.{book_of};

    /// Takes no memory yet.
    pub fn new(alloc: Global) -> PlainBook
        ensures { book_of result ≡ empty_book }
    {
        PlainBook {
            writes: Vec::new(alloc),
            hooks: Vec::new(alloc),
            laters: Vec::new(alloc),
            runs: Vec::new(alloc),
        }
    }

    pub fn copy(&self, alloc: Global) -> Result<PlainBook, Memory>
        ensures { IfOk result (λ book. book_of book ≡ book_of self.now) }
    {
        Ok(PlainBook {
            writes: Vec::from_slice(alloc, self.writes.as_slice())?,
            hooks: Vec::from_slice(alloc, self.hooks.as_slice())?,
            laters: Vec::from_slice(alloc, self.laters.as_slice())?,
            runs: Vec::from_slice(alloc, self.runs.as_slice())?,
        })
    }
}

/// The value that the writes give a cell.
pub(crate) fn buffered(writes: &[(u32, u64)], address: u32) -> Option<u64>
    ensures { result ≡ lookup (nat_eq address) writes.now }
{
    let mut rest = writes;
    while let Some((write, tail)) = rest.split_first() {
        if address == write.0 {
            return Some(write.1);
        }
        rest = tail;
    }
    None
}

/// The value that was read of a cell.
pub(crate) fn noted(notes: &[Note], address: u32) -> Option<u64>
    ensures { MatchOption result
        (All (λ note. note.addr.0 ≢ address) notes.now)
        (λ value. Any (λ note. (note.addr.0 ≡ address) × (note.value ≡ value)) notes.now) }
{
    for note in notes {
        if note.addr.0 == address {
            return Some(note.value);
        }
    }
    None
}

/// Writes in the place of a former write of that cell, or else at the end.
pub(crate) fn put_write(
    writes: &mut Vec<(u32, u64)>,
    address: u32,
    value: u64,
) -> Result<(), Memory>
    ensures ok { OnOk result (writes.new.items ≡ put writes.old.items address value) }
    ensures err { OnErr result (writes.new.items ≡ writes.old.items) }
{
    for i in 0..writes.len() {
        if address == writes[i].0 {
            writes[i] = (address, value);
            return Ok(());
        }
    }
    writes.push((address, value))?;
    Ok(())
}

/// Registers a handler, and takes room for its run where it is undone.
pub(crate) fn add_hook(book: &mut PlainBook, phase: HookPhase, token: u64) -> Result<(), Memory>
    requires room { HasRoom book.old }
    ensures room { HasRoom book.new }
    ensures ok { OnOk result (book_of book.new ≡ record (book_of book.old) { hooks = book.old.hooks.items ++ (phase, token) ∷ [] }) }
    ensures err { OnErr result (book_of book.new ≡ book_of book.old) }
{
    book.hooks.reserve(1)?;
    book.runs.reserve(book.hooks.capacity())?;
    book.hooks.push_reserved((phase, token));
    Ok(())
}

/// Whether handlers of this phase run where something is undone.
fn runs_undone(phase: HookPhase) -> bool
    ensures { result ≡ is_undoing phase }
{
    matches!(phase, HookPhase::Rollback | HookPhase::Completion)
}

/// Takes all handlers but the first `count` out, the last first, and runs those for an undoing.
pub(crate) fn undo_hooks(book: &mut PlainBook, count: usize)
    requires room { HasRoom book.old }
    requires count { count ≤ length book.old.hooks.items }
    ensures runs { book.new.runs.items ≡ book.old.runs.items ++ undoing (drop count book.old.hooks.items) }
    ensures room { length book.new.runs.items + count ≤ vec_capacity book.new.runs }
    ensures writes { book.new.writes ≡ book.old.writes }
    ensures laters { book.new.laters ≡ book.old.laters }
{
    while book.hooks.len() > count {
        if let Some(hook) = book.hooks.pop() {
            if runs_undone(hook.0) {
                book.runs.push_reserved(hook);
            }
        }
    }
}
