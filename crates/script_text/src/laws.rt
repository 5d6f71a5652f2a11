//! What the text of a job is: each function does nothing, and its clauses are theorems.
ghost use Rattle.std.specs.Prelude.{◌≡◌, ◌≤◌, ℕ, List, ◌++◌, Ok, length, map, flat_map};
ghost use Rattle.std.specs.List.{AllByRecursion};
ghost use Rattle.text_lines.specs.Lines.{lines, words, text_of};
ghost use Rattle.ledger_model.specs.declared.job.Job.{Job};
ghost use Rattle.ledger_model.specs.Fits.{JobFits};
ghost use Rattle.ledger_model.specs.Run.{statement_count};
ghost use Rattle.script_text.specs.Form.{FitsOnLine, IsBuilt, IsTextOf};
ghost use Rattle.script_text.specs.JobText.{job_of};
ghost use Rattle.script_text.specs.Printing.{canonical, job_lines, steps_line};

/// The canonical text of a job is that job, for each job within the limits whose forms are built.
pub fn a_canonical_text_is_its_job()
    ensures { (job : Job) → JobFits job → IsBuilt job → job_of (canonical job) ≡ Ok job }
{}

/// The canonical lines of such a job are that job with its steps in any groups, one on each line of
/// steps and each of 1 to 64 numbers.
pub fn steps_may_stand_in_any_groups()
    ensures { (job : Job) (groups : List (List ℕ)) → JobFits job → IsBuilt job →
        AllByRecursion FitsOnLine groups → flat_map (λ group. group) groups ≡ job.steps →
        job_of (text_of (job_lines job ++ map steps_line groups)) ≡ Ok job }
{}

/// A text that is a job is the text of a job within the limits whose forms are built: its lines are
/// the job's canonical ones, but for the spelling of numbers, for lines that say nothing, and for how
/// many numbers, from 1 to 64, stand on each line of steps. The lines of steps stand last.
pub fn a_text_has_the_lines_of_its_job()
    ensures { (text : List ℕ) (job : Job) → job_of text ≡ Ok job → IsTextOf text job }
{}

/// A text has a line for each statement of a script of its job, and so no fewer bytes.
pub fn a_text_has_a_line_for_each_statement()
    ensures { (text : List ℕ) (job : Job) → IsTextOf text job →
        AllByRecursion (λ scripts. AllByRecursion (λ script. statement_count script.block ≤ length text) scripts) job.workers }
{}

/// No text is the text of two jobs.
pub fn one_job_per_text()
    ensures { (text : List ℕ) (a b : Job) → IsTextOf text a → IsTextOf text b → a ≡ b }
{}

/// Texts with the same words in the same lines are one job, or have one refused line and reason.
pub fn words_and_lines_decide()
    ensures { (a b : List ℕ) → map words (lines a) ≡ map words (lines b) → job_of a ≡ job_of b }
{}
