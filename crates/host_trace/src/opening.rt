//! The contents that a job begins with.
ghost use Rattle.std.specs.Prelude.{◌≡◌, [], replicate, IfOk};
ghost use Rattle.ledger_model.specs.Contents.{opened, opening_contents};
ghost use Rattle.ledger_model.specs.Fits.{JobFits, OpeningsAscend};

use ledger_model::{Contents, Job, PairLists};
use std::alloc::Global;
use stm_model::{Memory, Pairs, Words};

pub(crate) fn opening_contents(alloc: Global, job: &Job) -> Result<Contents, Memory>
    requires { JobFits job.now }
    ensures { IfOk result (λ contents. contents ≡ opening_contents job.now) }
{
    Ok(Contents {
        refs: opened_refs(alloc, job)?,
        maps: empty_maps(alloc, job.maps)?,
        slots: empty_maps(alloc, job.snaps)?,
        used: 0,
    })
}

fn opened_refs(alloc: Global, job: &Job) -> Result<Words, Memory>
    requires { OpeningsAscend job.now.refs 0 job.now.openings }
    ensures { IfOk result (λ refs. refs ≡ opened job.now.openings (replicate job.now.refs 0)) }
{
    let mut refs = vec![in alloc; 0; job.refs as usize]?;
    for (cell, value) in job.openings.as_slice() {
        refs[*cell as usize] = *value;
    }
    Ok(Words::from(refs))
}

fn empty_maps(alloc: Global, count: u32) -> Result<PairLists, Memory>
    ensures { IfOk result (λ maps. maps ≡ replicate count []) }
{
    let mut maps = PairLists::new(alloc);
    for _ in 0..count {
        maps.push(Pairs::new(alloc))?;
    }
    Ok(maps)
}
