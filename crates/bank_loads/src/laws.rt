//! The laws of the bodies and of the scripts. Each function does nothing: its clauses are theorems.
ghost use Rattle.std.specs.Prelude.{◌≡◌, ◌+◌, ◌*◌, ◌<◌, ◌^◌, ℕ, List, count_by, length, slice_index, sum};
ghost use Rattle.bank_words.specs.declared.task.Load.{Load};
ghost use Rattle.bank_words.specs.declared.task.Load.TheVariants.{One};
ghost use Rattle.bank_loads.specs.Counting.{counted};
ghost use Rattle.bank_loads.specs.Heaps.{transferred};
ghost use Rattle.bank_loads.specs.Sizes.{additions};
ghost use Rattle.bank_loads.specs.Turns.{is_adding, scripts_of};
ghost use Rattle.bank_loads.specs.declared.moving.Transfer.{Transfer};

/// A transfer keeps the sum of the heap, and a count adds one to it.
pub fn what_becomes_of_the_sum()
    ensures transferred { (t : Transfer) (heap : List ℕ) → t.from.0 < length heap → t.to.0 < length heap →
        sum (transferred t heap) ≡ sum heap }
    ensures counted { (cell : ℕ) (heap : List ℕ) → cell < length heap → slice_index heap cell + 1 < 2 ^ 64 →
        sum (counted cell heap) ≡ sum heap + 1 }
{}

/// As many scripts of all workers add one to a cell as are reckoned.
pub fn how_many_scripts_add()
    ensures { (load : Load) (scripts threads worker : ℕ) → (load ≡ One → threads ≡ 1) →
        additions load scripts threads ≡ threads * count_by is_adding (scripts_of load worker scripts) }
{}
