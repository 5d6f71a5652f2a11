//! Worked texts: what some texts are, or which line of them is refused and why. Each function does
//! nothing, and its clauses are theorems by computation.

ghost use Rattle.std.specs.Prelude.{◌≡◌, ◌∷◌, [], ◌++◌, Ok, Err, codes, replicate, flat_map};
ghost use Rattle.ledger_model.specs.declared.reason.Reason.TheVariants.{Byte, Head, Word, Unbuilt, Order, Depth, Many, Count, Number, Range, Unclosed};
ghost use Rattle.ledger_model.specs.declared.script.Operand.TheVariants.{Reg, Number as Value};
ghost use Rattle.ledger_model.specs.declared.script.Statement.TheVariants.{Either, Inner, Print, Read, Write};
ghost use Rattle.script_text.specs.JobText.{job_of};
ghost use Rattle.script_text.specs.Printing.{canonical};

/// A text has a head, and ends outside of scripts. Skipped lines count.
pub fn heads_and_ends()
    ensures empty { job_of [] ≡ Err (1, Head) }
    ensures skipped { job_of (codes "# a job\n\n") ≡ Err (3, Head) }
    ensures other_head { job_of (codes "stm 2\n") ≡ Err (1, Head) }
    ensures late_head { job_of (codes "# a job\nstm 1 1\n") ≡ Err (2, Head) }
    ensures second_head { job_of (codes "stm 1\nstm 1\n") ≡ Err (2, Order) }
    ensures script_open { job_of (codes "stm 1\nworker\nscript\n") ≡ Err (4, Unclosed) }
    ensures no_last_feed { job_of (codes "stm 1\nworker\nscript") ≡ Err (4, Unclosed) }
    ensures byte { job_of (codes "stm 1\n# \t\n") ≡ Err (2, Byte) }
{}

/// Lines that have no place where they stand, or none at all.
pub fn lines_out_of_place()
    ensures unknown { job_of (codes "stm 1\njump 1\n") ≡ Err (2, Word) }
    ensures statement { job_of (codes "stm 1\nread r0 0\n") ≡ Err (2, Order) }
    ensures maps { job_of (codes "stm 1\nmaps 1\n") ≡ Err (2, Unbuilt) }
    ensures same_ref { job_of (codes "stm 1\nrefs 1\nref 0 5\nref 0 6\n") ≡ Err (4, Order) }
    ensures same_ref_short { job_of (codes "stm 1\nrefs 1\nref 0 5\nref 0\n") ≡ Err (4, Order) }
    ensures same_ref_word { job_of (codes "stm 1\nrefs 1\nref 0 5\nref 0 x\n") ≡ Err (4, Order) }
    ensures no_ref { job_of (codes "stm 1\nrefs 1\nref 0 5\nref x 6\n") ≡ Err (4, Number) }
    ensures one_part { job_of (codes "stm 1\nworker\nscript\neither\nprint 1\nend\nend\n") ≡ Err (6, Order) }
    ensures one_part_first { job_of (codes "stm 1\nworker\nscript\neither\nprint 1\nend 1\nend\n") ≡ Err (6, Order) }
    ensures or_alone { job_of (codes "stm 1\nworker\nscript\nor\nend\n") ≡ Err (4, Order) }
{}

/// Words that say no number, or one out of range.
pub fn words_out_of_range()
    ensures few_refs { job_of (codes "stm 1\nrefs 65536\n") ≡ Ok (record { refs = 65536; maps = 0; snaps = 0; blocks = 0; openings = []; workers = []; steps = [] }) }
    ensures refs { job_of (codes "stm 1\nrefs 65537\n") ≡ Err (2, Range) }
    ensures register { job_of (codes "stm 1\nrefs 1\nworker\nscript\nread r16 0\nend\n") ≡ Err (5, Range) }
    ensures long_register { job_of (codes "stm 1\nrefs 1\nworker\nscript\nread r016 0\nend\n") ≡ Err (5, Range) }
    ensures great_register { job_of (codes "stm 1\nrefs 1\nworker\nscript\nread r99 0\nend\n") ≡ Err (5, Range) }
    ensures padded_register { job_of (codes "stm 1\nrefs 1\nworker\nscript\nread r01 0\nend\n") ≡ Err (5, Number) }
    ensures reference { job_of (codes "stm 1\nrefs 1\nworker\nscript\nread r0 1\nend\n") ≡ Err (5, Range) }
    ensures number { job_of (codes "stm 1\nworker\nscript\nconst r0 18446744073709551616\nend\n") ≡ Err (4, Number) }
    ensures number_first { job_of (codes "stm 1\nworker\nscript\ncheck r16 1 x\nend\n") ≡ Err (4, Number) }
    ensures worker { job_of (codes "stm 1\nworker\nsteps 2\n") ≡ Err (3, Range) }
    ensures no_worker { job_of (codes "stm 1\nworker\nsteps 0\n") ≡ Err (3, Range) }
{}

/// Blocks and lines of steps up to their limits, and past them.
pub fn limits()
    ensures depth { job_of (codes "stm 1\nworker\nscript\n" ++ flat_map (λ line. line) (replicate 33 (codes "inner r0\n"))) ≡ Err (36, Depth) }
    ensures deepest { job_of (codes "stm 1\nworker\nscript\n" ++ flat_map (λ line. line) (replicate 32 (codes "inner r0\n"))) ≡ Err (36, Unclosed) }
    ensures workers { job_of (codes "stm 1\n" ++ flat_map (λ line. line) (replicate 17 (codes "worker\n"))) ≡ Err (18, Many) }
    ensures steps { job_of (codes "stm 1\nworker\nsteps" ++ flat_map (λ word. word) (replicate 65 (codes " 1"))) ≡ Err (3, Count) }
    ensures no_steps { job_of (codes "stm 1\nworker\nsteps\n") ≡ Err (3, Count) }
{}

/// A text may have further spaces, leading zeros, skipped lines and openings of 0. The canonical text
/// of its job has none of these.
pub fn a_text_and_its_canonical_one()
    ensures job { job_of (codes "stm  1\n# two\n\nrefs 02\nref 0 0\nref 1 007\nworker\n script \ninner r1\nread r0 1\nend\neither\nwrite 0 r0\nor\nprint 00\nend\nend\nsteps 1\nsteps 01 1\n") ≡
        Ok (record {
          refs = 2;
          maps = 0;
          snaps = 0;
          blocks = 0;
          openings = (1, 7) ∷ [];
          workers = ((record { block = Inner 1 (Read 0 1 ∷ []) ∷ Either ((Write 0 (Reg 0) ∷ []) ∷ (Print (Value 0) ∷ []) ∷ []) ∷ [] }) ∷ []) ∷ [];
          steps = 1 ∷ 1 ∷ 1 ∷ [];
        }) }
    ensures canonical { canonical (record {
      refs = 2;
      maps = 0;
      snaps = 0;
      blocks = 0;
      openings = (1, 7) ∷ [];
      workers = ((record { block = Inner 1 (Read 0 1 ∷ []) ∷ Either ((Write 0 (Reg 0) ∷ []) ∷ (Print (Value 0) ∷ []) ∷ []) ∷ [] }) ∷ []) ∷ [];
      steps = 1 ∷ 1 ∷ 1 ∷ [];
    }) ≡
        codes "stm 1\nrefs 2\nref 1 7\nworker\nscript\ninner r1\nread r0 1\nend\neither\nwrite 0 r0\nor\nprint 0\nend\nend\nsteps 1 1 1\n" }
{}
