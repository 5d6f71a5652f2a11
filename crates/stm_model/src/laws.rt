//! The laws of heaps, histories and what is owed. Each function does nothing: its clauses are theorems.
ghost use Rattle.std.specs.Prelude.{◌≡◌, ◌≢◌, ◌+◌, ◌-◌, ◌<◌, ◌≤◌, ◌^◌, ◌++◌, ◌∷◌, [], ℕ, List, length, nat_eq, slice_index, slice_set, if◌then◌else◌, is_some, None, IsFalse, IsTrue};
ghost use Rattle.std.specs.List.{All, IsDistinct};
ghost use Rattle.std.specs.Map.{keys_of, lookup, values_of};
ghost use Rattle.stm_model.specs.declared.cause.Cause.{Cause};
ghost use Rattle.stm_model.specs.declared.note.Note.{Note};
ghost use Rattle.stm_model.specs.declared.sizes.Layout.{Layout};
ghost use Rattle.stm_model.specs.Heap.{Agrees, AreWords, over, put, writes_to};
ghost use Rattle.stm_model.specs.History.{Entry, IsCurrent, IsEntry, IsLegal, entry_after, last, state};
ghost use Rattle.stm_model.specs.Layouts.{IsPart, Part, cell_count, part_at};
ghost use Rattle.stm_model.specs.Owes.{Owes};
ghost use Rattle.stm_model.specs.Sizes.{IsWithinLimits, cells_needed};
ghost use Rattle.stm_model.specs.Telling.{Extends, Owing, Reading, StaysLawful, Stopping, Writing};

use crate::{Cells, Free, Law};

/// Putting one write more into a list of writes is writing that cell after all of them. Of each cell
/// there is still one write at most.
pub fn a_put_write_comes_last()
    ensures over { (heap : List ℕ) (writes : List (ℕ × ℕ)) (address value : ℕ) →
        over heap (put writes address value) ≡ slice_set (over heap writes) address value }
    ensures apart { (writes : List (ℕ × ℕ)) (address value : ℕ) →
        IsDistinct nat_eq (keys_of writes) → IsDistinct nat_eq (keys_of (put writes address value)) }
    ensures words { (writes : List (ℕ × ℕ)) (address value : ℕ) →
        AreWords (values_of writes) → value < 2 ^ 64 → AreWords (values_of (put writes address value)) }
{}

/// Writes leave as many cells as there were, all of them words, and change only those that they go to.
pub fn writes_change_their_cells()
    ensures cells { (heap : List ℕ) (writes : List (ℕ × ℕ)) → length (over heap writes) ≡ length heap }
    ensures words { (heap : List ℕ) (writes : List (ℕ × ℕ)) →
        AreWords heap → AreWords (values_of writes) → AreWords (over heap writes) }
    ensures others { (heap : List ℕ) (writes : List (ℕ × ℕ)) (address : ℕ) →
        IsFalse (writes_to writes address) → slice_index (over heap writes) address ≡ slice_index heap address }
    ensures written { (heap : List ℕ) (writes : List (ℕ × ℕ)) (address value : ℕ) →
        address < length heap → lookup (nat_eq address) writes ≡ Some value → slice_index (over heap writes) address ≡ value }
    ensures found { (writes : List (ℕ × ℕ)) (address : ℕ) →
        writes_to writes address ≡ is_some (lookup (nat_eq address) writes) }
{}

/// The heaps of a history: the opening one, and each entry's writes put into the one before.
pub fn each_entry_writes_over_the_heap_before()
    ensures first { (opening : List ℕ) (history : List Entry) → state opening history 0 ≡ opening }
    ensures next { (opening : List ℕ) (history : List Entry) (n : ℕ) →
        state opening history (n + 1) ≡ over (state opening history n) (entry_after history n).writes }
    ensures cells { (opening : List ℕ) (history : List Entry) (n : ℕ) → length (state opening history n) ≡ length opening }
    ensures words { (opening : List ℕ) (history : List Entry) (n : ℕ) →
        IsLegal opening history → AreWords (state opening history n) }
{}

/// What comes at the end of a history changes nothing up to there. A front of a legal history is one.
pub fn the_past_stays()
    ensures heap { (opening : List ℕ) (history more : List Entry) (n : ℕ) →
        n ≤ length history → state opening (history ++ more) n ≡ state opening history n }
    ensures writer { (history more : List Entry) (n address : ℕ) →
        n ≤ length history → last (history ++ more) n address ≡ last history n address }
    ensures legal { (opening : List ℕ) (history more : List Entry) →
        IsLegal opening (history ++ more) → IsLegal opening history }
{}

/// The last writer of a cell up to a place is one of the entries up to there. It writes the cell, and
/// no later one up to there does. It is 0 where none does.
pub fn the_last_writer_writes_last()
    ensures bound { (history : List Entry) (n address : ℕ) → last history n address ≤ n }
    ensures within { (history : List Entry) (n address : ℕ) → last history n address ≤ length history }
    ensures writes { (history : List Entry) (n address : ℕ) → last history n address ≢ 0 →
        IsTrue (writes_to (entry_after history (last history n address - 1)).writes address) }
    ensures no_later { (history : List Entry) (n address k : ℕ) → last history n address ≤ k → k < n →
        IsFalse (writes_to (entry_after history k).writes address) }
{}

/// At two places with one last writer a cell holds one word. So a note that is current at one place is
/// current wherever its version is the last writer's number.
pub fn one_last_writer_leaves_one_word()
    ensures cell { (opening : List ℕ) (history : List Entry) (m n address : ℕ) →
        last history m address ≡ last history n address →
        slice_index (state opening history m) address ≡ slice_index (state opening history n) address }
    ensures note { (opening : List ℕ) (history : List Entry) (m n : ℕ) (note : Note) →
        IsCurrent opening history m note → note.version ≡ last history n note.addr.0 → IsCurrent opening history n note }
    ensures agrees { (opening : List ℕ) (history : List Entry) (n : ℕ) (notes : List Note) →
        All (IsCurrent opening history n) notes → Agrees notes (state opening history n) }
{}

/// A new entry writes over the heap that all entries before it left, and is the last writer of what it
/// writes. Where its notes are current there, a legal history stays legal.
pub fn a_new_entry_comes_last()
    ensures heap { (opening : List ℕ) (history : List Entry) (entry : Entry) →
        state opening (history ++ entry ∷ []) (length history + 1) ≡ over (state opening history (length history)) entry.writes }
    ensures writer { (history : List Entry) (entry : Entry) (address : ℕ) →
        last (history ++ entry ∷ []) (length history + 1) address ≡
        (if writes_to entry.writes address then length history + 1 else last history (length history) address) }
    ensures legal { (opening : List ℕ) (history : List Entry) (entry : Entry) → IsLegal opening history → IsEntry entry →
        All (IsCurrent opening history (length history)) entry.reads → IsLegal opening (history ++ entry ∷ []) }
{}

/// Who writes nothing owes nothing under any law, and what was owed before more reads is so after them.
pub fn reads_owe_nothing<L: Law>()
    ensures nothing_written { (law : L) (size : ℕ) (reads : List Note) → Owes (L.lawful law) (L.may law) size reads [] }
    ensures more_reads { (law : L) (size : ℕ) (reads more : List Note) (writes : List (ℕ × ℕ)) →
        Owes (L.lawful law) (L.may law) size reads writes → Owes (L.lawful law) (L.may law) size (reads ++ more) writes }
{}

/// What is owed from one moment of cells to the next, under any law. Who only reads keeps what was owed,
/// and so does who changes no write, as in an undo of what was written since. Who writes keeps it where each
/// lawful heap becomes a lawful one that it may become. Who was refused something owes nothing. What is owed
/// contains that heaps stay lawful. A body that shows this of its calls shows what it owes at its end.
pub fn what_is_owed_stays_owed<L: Law, C: Cells<L>>()
    ensures read { (before after : C) → Reading L.lawful C.law C.follows C.state before after (λ heap. Unit {0}) →
        Owing (L.lawful (C.law before)) (L.may (C.law before)) (C.state before) →
        Owing (L.lawful (C.law after)) (L.may (C.law after)) (C.state after) }
    ensures written { (before after : C) → Writing L.lawful C.law C.follows C.state before after
        (λ first second. L.lawful (C.law before) first → L.lawful (C.law before) second × L.may (C.law before) first second) →
        Owing (L.lawful (C.law before)) (L.may (C.law before)) (C.state before) →
        Owing (L.lawful (C.law after)) (L.may (C.law after)) (C.state after) }
    ensures same_writes { (before after : C) → C.law after ≡ C.law before → (C.state after).size ≡ (C.state before).size →
        (C.state after).now.writes ≡ (C.state before).now.writes → Extends (C.state before).reads (C.state after).reads →
        ((C.state after).cause ≡ None → (C.state before).cause ≡ None) →
        Owing (L.lawful (C.law before)) (L.may (C.law before)) (C.state before) →
        Owing (L.lawful (C.law after)) (L.may (C.law after)) (C.state after) }
    ensures stopped { (before after : C) (cause : Cause) → Stopping C.law C.follows C.state before after cause →
        Owing (L.lawful (C.law after)) (L.may (C.law after)) (C.state after) }
    ensures lawful { (cells : C) → Owing (L.lawful (C.law cells)) (L.may (C.law cells)) (C.state cells) →
        StaysLawful (L.lawful (C.law cells)) (C.state cells) }
{}

/// Under the free law whatever is written is what is owed.
pub fn free_allows_all_writes()
    ensures { (law : Free) (size : ℕ) (reads : List Note) (writes : List (ℕ × ℕ)) →
        Owes (⟦<Free as Law>⟧.lawful law) (⟦<Free as Law>⟧.may law) size reads writes }
{}

/// Each part of a layout has a cell of its own, within the layout, and each cell is that of one part.
pub fn each_cell_of_a_layout_is_one_part()
    ensures inside { (layout : Layout) (part : Part) → IsPart layout part → part_at layout part < cell_count layout }
    ensures apart { (layout : Layout) (one other : Part) → IsPart layout one → IsPart layout other →
        part_at layout one ≡ part_at layout other → one ≡ other }
    ensures each { (layout : Layout) (cell : ℕ) → cell < cell_count layout →
        (part : Part) × IsPart layout part × (part_at layout part ≡ cell) }
{}

/// A layout by hand: two refs, one map, one snapshot slot and two stripes of three blocks each take
/// 2 + 2 + 1 + 2 + 108 cells, in six blocks. With no stripe there is none, and it would have 5 cells.
pub fn a_layout_of_two_stripes()
    ensures within { IsWithinLimits 2 1 1 2 3 }
    ensures cells { cells_needed 2 1 1 2 3 ≡ 115 }
    ensures none { IsWithinLimits 2 1 1 0 3 → ⊥ }
    ensures no_stripe { cells_needed 2 1 1 0 3 ≡ 5 }
{}
