//! What the top call answers and writes.
ghost use Rattle.std.specs.Prelude.{◌≤◌};

use ledger_host::{HostStatus, host_plain};
use ledger_model::Reason;
use std::alloc::{AllocError, Global};
use std::test::Fail;
use stm_io::{MemSink, MemSource};

// What a call answered, and what the sink holds after it.
#[derive(Drop)]
struct Told {
    status: HostStatus,
    report: Vec<u8>,
}

fn words_of(alloc: Global, line: &str) -> Result<Vec<String>, AllocError> {
    let mut words = Vec::new(alloc);
    for word in line.split_whitespace() {
        words.push(String::from_str(alloc, word)?)?;
    }
    Ok(words)
}

// A call over this source and this sink.
fn tell_over(
    alloc: Global,
    line: &str,
    mut source: MemSource,
    mut sink: MemSink,
) -> Result<Told, AllocError> {
    let words = words_of(alloc, line)?;
    let status = host_plain(alloc, &words, &mut source, &mut sink);
    let report = Vec::from_slice(alloc, sink.bytes())?;
    Ok(Told { status, report })
}

// A call on a text that comes in pieces of so many bytes.
fn tell(alloc: Global, line: &str, text: &[u8], piece: usize) -> Result<Told, AllocError>
    requires { 1 ≤ piece }
{
    let source = MemSource::new(Vec::from_slice(alloc, text)?, piece, Vec::new(alloc));
    match MemSink::new(alloc, 1 << 20, 4096, Vec::new(alloc)) {
        Ok(sink) => tell_over(alloc, line, source, sink),
        Err(_) => Err(AllocError),
    }
}

const NOTHING: &[u8] = b"stm 1\n";

const OWN_WRITE: &[u8] =
    b"stm 1\nrefs 2\nref 0 100\nworker\nscript\nread r0 0\nadd r0 30\nwrite 0 r0\nread r1 0\nprint r1\nend\nscript\nread r0 0\nprint r0\nend\n";

const TWO_ADDS: &[u8] =
    b"stm 1\nrefs 1\nworker\nscript\nread r0 0\nadd r0 5\nwrite 0 r0\nprint r0\nend\nworker\nscript\nread r0 0\nadd r0 7\nwrite 0 r0\nprint r0\nend\n";

#[test]
fn worked_jobs_have_their_reports(rt: HostRuntime) -> Result<(), Fail> {
    let jobs: [(&[u8], &[u8]); 3] = [
        (NOTHING, b"ledger 1\nused 0\ndone 0\n"),
        (
            OWN_WRITE,
            b"ledger 1\n1 w 1.1 ok 130\n1 r 1.2 ok 130\nref 0 130\nref 1 0\nused 0\ndone 2\n",
        ),
        (
            TWO_ADDS,
            b"ledger 1\n1 w 1.1 ok 5\n2 w 2.1 ok 12\nref 0 12\nused 0\ndone 2\n",
        ),
    ];
    for (job, report) in jobs {
        for piece in [1, 1 << 20] {
            let told = tell(rt.alloc(), "trace", job, piece)?;
            assert_eq!(rt; told.status, HostStatus::Done);
            assert_eq!(rt; told.report.as_slice(), report);
        }
    }
    Ok(())
}

#[test]
fn other_words_are_usage(rt: HostRuntime) -> Result<(), Fail> {
    for line in [
        "",
        "x",
        "trace x",
        "x trace",
        "trace trace",
        "Trace",
        "trac",
        "tracer",
    ] {
        let told = tell(rt.alloc(), line, OWN_WRITE, 4096)?;
        assert_eq!(rt; told.status, HostStatus::Usage, "at {line}");
        assert_eq!(rt; told.report.as_slice(), [].as_slice());
    }
    Ok(())
}

// A call on the empty job, whose source and sink fail at these calls.
fn tell_failing(alloc: Global, reads: Vec<u64>, writes: Vec<u64>) -> Result<Told, AllocError> {
    let source = MemSource::new(Vec::from_slice(alloc, NOTHING)?, 4, reads);
    match MemSink::new(alloc, 100, 8, writes) {
        Ok(sink) => tell_over(alloc, "trace", source, sink),
        Err(_) => Err(AllocError),
    }
}

#[test]
fn a_failing_source_writes_nothing(rt: HostRuntime) -> Result<(), Fail> {
    let alloc = rt.alloc();
    let told = tell_failing(alloc, vec![in alloc; 2]?, Vec::new(alloc))?;
    assert_eq!(rt; told.status, HostStatus::ReadFault);
    assert_eq!(rt; told.report.as_slice(), [].as_slice());
    Ok(())
}

#[test]
fn a_failing_sink_holds_a_front_of_the_report(rt: HostRuntime) -> Result<(), Fail> {
    let alloc = rt.alloc();
    let told = tell_failing(alloc, Vec::new(alloc), vec![in alloc; 2]?)?;
    assert_eq!(rt; told.status, HostStatus::WriteFault);
    assert_eq!(rt; told.report.as_slice(), b"ledger 1".as_slice());
    Ok(())
}
// A job of one script that prints 0 so often, the last time as `word`.
fn prints(alloc: Global, count: usize, word: &[u8]) -> Result<Vec<u8>, AllocError> {
    let mut text = Vec::from_slice(alloc, b"stm 1\nworker\nscript\n")?;
    for _ in 1..count {
        text.extend_from_slice(b"print 0\n")?;
    }
    text.extend_from_slice(b"print ")?;
    text.extend_from_slice(word)?;
    text.extend_from_slice(b"\nend\n")?;
    Ok(text)
}

#[test]
fn the_greatest_text_is_done_and_one_byte_more_is_too_long(rt: HostRuntime) -> Result<(), Fail> {
    let greatest = prints(rt.alloc(), 131_069, b"0")?;
    assert_eq!(rt; greatest.len(), 1_048_576);
    let told = tell(rt.alloc(), "trace", &greatest, 1 << 20)?;
    assert_eq!(rt; told.status, HostStatus::Done);
    assert!(rt; told.report.starts_with(b"ledger 1\n0 r 1.1 ok 0 0 0"));
    assert!(rt; told.report.ends_with(b" 0 0 0\nused 0\ndone 1\n"));
    let longer = prints(rt.alloc(), 131_069, b"00")?;
    let told = tell(rt.alloc(), "trace", &longer, 1 << 20)?;
    assert_eq!(rt;
        told.status,
        HostStatus::Script {
            line: 0,
            reason: Reason::Long
        }
    );
    assert_eq!(rt; told.report.as_slice(), [].as_slice());
    Ok(())
}

// These bytes, and so many line feeds behind them.
fn with_line_feeds(alloc: Global, front: &[u8], count: usize) -> Result<Vec<u8>, AllocError> {
    let mut text = Vec::from_slice(alloc, front)?;
    text.extend_from_slice(&b"\n".repeat(alloc, count)?)?;
    Ok(text)
}

#[test]
fn the_greatest_text_of_line_feeds_is_the_empty_job(rt: HostRuntime) -> Result<(), Fail> {
    let alloc = rt.alloc();
    let greatest = with_line_feeds(alloc, b"stm 1", 1_048_571)?;
    assert_eq!(rt; greatest.len(), 1_048_576);
    let told = tell(alloc, "trace", &greatest, 1 << 20)?;
    assert_eq!(rt; told.status, HostStatus::Done);
    assert_eq!(rt;
        told.report.as_slice(),
        b"ledger 1\nused 0\ndone 0\n".as_slice()
    );
    for (count, line, reason) in [
        (1_048_576, 1_048_577, Reason::Head),
        (1_048_577, 0, Reason::Long),
    ] {
        let feeds = with_line_feeds(alloc, b"", count)?;
        let told = tell(alloc, "trace", &feeds, 1 << 20)?;
        assert_eq!(rt; told.status, HostStatus::Script { line, reason });
    }
    Ok(())
}

// So many workers with so many empty scripts each.
fn empty_scripts(alloc: Global, workers: usize, scripts: usize) -> Result<Vec<u8>, AllocError> {
    let mut text = Vec::from_slice(alloc, b"stm 1\n")?;
    for _ in 0..workers {
        text.extend_from_slice(b"worker\n")?;
        for _ in 0..scripts {
            text.extend_from_slice(b"script\nend\n")?;
        }
    }
    Ok(text)
}

#[test]
fn the_most_workers_and_scripts_are_done(rt: HostRuntime) -> Result<(), Fail> {
    let most = empty_scripts(rt.alloc(), 16, 4096)?;
    let told = tell(rt.alloc(), "trace", &most, 1 << 20)?;
    assert_eq!(rt; told.status, HostStatus::Done);
    assert!(rt;
        told.report
            .starts_with(b"ledger 1\n0 r 1.1 ok\n0 r 1.2 ok\n")
    );
    assert!(rt;
        told.report
            .ends_with(b"\n0 r 16.4096 ok\nused 0\ndone 65536\n")
    );
    for (workers, scripts, line) in [(17, 1, 50), (1, 4097, 8195)] {
        let more = empty_scripts(rt.alloc(), workers, scripts)?;
        let told = tell(rt.alloc(), "trace", &more, 1 << 20)?;
        let reason = Reason::Many;
        assert_eq!(rt; told.status, HostStatus::Script { line, reason });
    }
    Ok(())
}
