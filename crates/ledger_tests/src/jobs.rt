//! Jobs that texts say, and their canonical texts.

use crate::random::{Random, random_text};
use ledger_model::{Job, Operand, Statement};
use script_text::{ParseFault, parse, print};
use std::alloc::Global;
use std::test::Fail;
use stm_io::{MemSource, read_all};
use stm_model::HookPhase;

/// The job that a text is. What is proved of it would be worked out anew at each text below, so no clause says it.
fn job_of(alloc: Global, text: &[u8]) -> Result<Job, ParseFault> {
    parse(alloc, text)
}

/// The canonical text of the job that a text is.
fn reprinted(alloc: Global, text: &[u8]) -> Result<Vec<u8>, ParseFault> {
    let job = parse(alloc, text)?;
    match print(alloc, &job) {
        Ok(text) => Ok(text),
        Err(_) => Err(ParseFault::Memory),
    }
}

#[test]
fn random_jobs_are_printed_and_read_back(rt: HostRuntime) -> Result<(), Fail> {
    let alloc = rt.alloc();
    let mut random = Random {
        state: 88_172_645_463_325_252,
    };
    let mut taken = 0_u64;
    for index in 0..10_000 {
        let (text, next) = random_text(alloc, random)?;
        random = next;
        if let Ok(job) = parse(alloc, &text) {
            taken = taken.saturating_add(1);
            let printed = print(alloc, &job)?;
            let again = reprinted(alloc, &printed)?;
            assert_eq!(rt; again.as_slice(), printed.as_slice(), "at text {index}");
        }
    }
    assert!(rt; taken >= 2_500, "{taken} are jobs");
    assert!(rt; taken <= 9_500, "{taken} are jobs");
    Ok(())
}

/// What a source gives in pieces of four bytes.
fn read_in_pieces(alloc: Global, text: &[u8]) -> Result<Vec<u8>, Fail> {
    let text = Vec::from_slice(alloc, text)?;
    let mut source = MemSource::new(text, 4, Vec::new(alloc));
    Ok(read_all(alloc, &mut source)?)
}

#[test]
fn the_empty_job_is_read_and_printed_in_six_bytes(rt: HostRuntime) -> Result<(), Fail> {
    let alloc = rt.alloc();
    let read = read_in_pieces(alloc, b"stm 1\n")?;
    assert_eq!(rt; read.len(), 6);
    let job = job_of(alloc, &read)?;
    let counts = (
        job.refs,
        job.openings.len(),
        job.workers.len(),
        job.steps.len(),
    );
    assert_eq!(rt; counts, (0, 0, 0, 0));
    assert_eq!(rt; reprinted(alloc, &read)?.as_slice(), b"stm 1\n".as_slice());
    Ok(())
}

#[test]
fn the_last_line_is_printed_with_a_line_feed(rt: HostRuntime) -> Result<(), Fail> {
    let printed = reprinted(rt.alloc(), b"stm 1\nworker\nscript\nend")?;
    assert_eq!(rt;
        printed.as_slice(),
        b"stm 1\nworker\nscript\nend\n".as_slice()
    );
    Ok(())
}

#[test]
fn references_begin_with_what_is_written(rt: HostRuntime) -> Result<(), Fail> {
    let empty = job_of(rt.alloc(), b"stm 1\nrefs 0\n")?;
    assert_eq!(rt;
        (empty.refs, empty.openings.len(), empty.workers.len()),
        (0, 0, 0)
    );
    let text = b"stm 1\nrefs 0065536\nref 00 007\nref 3 0\nref 65535 18446744073709551615\n";
    let job = job_of(rt.alloc(), text)?;
    assert_eq!(rt; job.refs, 65_536);
    assert_eq!(rt;
        job.openings.as_slice(),
        [(0, 7), (65_535, u64::MAX)].as_slice()
    );
    assert_eq!(rt;
        (job.maps, job.snaps, job.blocks, job.steps.len()),
        (0, 0, 0, 0)
    );
    Ok(())
}

const STATEMENTS: &[u8] =
    b"stm 1\nrefs 2\nworker\nscript\nconst r15 00000000000000000002\nread r0 1\nwrite 01 r10\nadd r9 5\nsub r8 r9\nprint 0\nend\nscript\nend\nworker\n";

#[test]
fn statements_are_what_their_lines_say(rt: HostRuntime) -> Result<(), Fail> {
    let job = job_of(rt.alloc(), STATEMENTS)?;
    assert_eq!(rt; job.workers.len(), 2);
    assert_eq!(rt; job.workers.at(1).len(), 0);
    let scripts = job.workers.at(0);
    assert_eq!(rt; scripts.len(), 2);
    assert_eq!(rt; scripts.at(1).block.len(), 0);
    assert!(rt; are_those_statements(scripts.at(0).block.as_slice()));
    Ok(())
}

/// Whether these are the statements of the first script of `STATEMENTS`.
fn are_those_statements(block: &[Statement]) -> bool {
    match block {
        [
            Statement::Const { reg, number },
            Statement::Read { reg: to, cell },
            Statement::Write { cell: at, value },
            Statement::Add {
                reg: up,
                value: more,
            },
            Statement::Sub {
                reg: down,
                value: less,
            },
            Statement::Print { value: shown },
        ] => {
            (*reg, *number, *to, *cell) == (15, 2, 0, 1)
                && (*at, *value) == (1, Operand::Reg(10))
                && (*up, *more) == (9, Operand::Number(5))
                && (*down, *less) == (8, Operand::Reg(9))
                && *shown == Operand::Number(0)
        }
        _ => false,
    }
}

const BLOCKS: &[u8] =
    b"stm 1\nrefs 2\nworker\nscript\ninner r3\ncheck r1 2 5\nlate\nneed 1 2\nend\nend\neither\nmove 1 0 r2\nor\nor\nprint 4\nprint 5\nend\nhook rollback 6\nend\nworker\nsteps 2 1\n";

#[test]
fn blocks_hold_what_stands_inside_them(rt: HostRuntime) -> Result<(), Fail> {
    let job = job_of(rt.alloc(), BLOCKS)?;
    assert_eq!(rt; job.steps.as_slice(), [2, 1].as_slice());
    assert_eq!(rt; job.workers.len(), 2);
    let scripts = job.workers.at(0);
    assert_eq!(rt; scripts.len(), 1);
    match scripts.at(0).block.as_slice() {
        [
            Statement::Inner { reg, block },
            Statement::Either { parts },
            Statement::Hook { phase, token },
        ] => {
            assert_eq!(rt; (*reg, *phase, *token), (3, HookPhase::Rollback, 6));
            assert!(rt; is_check_and_late(block.as_slice()));
            assert_eq!(rt; parts.len(), 3);
            let lengths = [parts.at(0).len(), parts.at(1).len(), parts.at(2).len()];
            assert_eq!(rt; lengths, [1, 0, 2]);
        }
        _ => assert!(rt; false, "three statements"),
    }
    Ok(())
}

/// Whether these are the statements inside the `inner` of `BLOCKS`.
fn is_check_and_late(block: &[Statement]) -> bool {
    match block {
        [
            Statement::Check { left, right, code },
            Statement::Late { block },
        ] => {
            (*left, *right, *code) == (Operand::Reg(1), Operand::Number(2), 5) && block.len() == 1
        }
        _ => false,
    }
}
