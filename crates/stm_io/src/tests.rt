//! What the calls do on a few texts, where memory is ample.
ghost use Rattle.std.specs.Prelude.{◌≤◌};

use super::*;
use std::alloc::Global;
use std::io;
use std::io::Read;
use std::test::Fail;

const REPORT: &[u8] = b"ledger 1\nused 0\ndone 0\n";

fn source_of(alloc: Global, text: &[u8], at_most: usize, failing: &[u64]) -> Result<MemSource, Fail>
    requires { 1 ≤ at_most }
{
    Ok(MemSource::new(text.to_vec(alloc)?, at_most, failing.to_vec(alloc)?))
}

#[test]
fn a_failed_read_takes_nothing(rt: HostRuntime) -> Result<(), Fail> {
    let alloc = rt.alloc();
    let mut source = source_of(alloc, b"ledger", 4, &[2])?;
    let mut into = [b'-'; 5];
    let answers = [
        (Ok(4), b"ledg-"),
        (Err(Failed), b"ledg-"),
        (Ok(2), b"erdg-"),
        (Ok(0), b"erdg-"),
    ];
    for (answer, held) in answers {
        assert_eq!(rt; source.read(&mut into), answer);
        assert_eq!(rt; into.as_slice(), held.as_slice());
    }
    let mut source = source_of(alloc, REPORT, 4, &[2])?;
    assert_eq!(rt; read_all(alloc, &mut source), Err(ReadAllFault::ReadFault));
    Ok(())
}

#[test]
fn pieces_of_any_length_make_the_whole(rt: HostRuntime) -> Result<(), Fail> {
    let alloc = rt.alloc();
    for at_most in [1, 4, 23, 1000] {
        let mut source = source_of(alloc, REPORT, at_most, &[])?;
        let text = read_all(alloc, &mut source).ok().ok_or("not read")?;
        assert_eq!(rt; text.as_slice(), REPORT, "{at_most} at a read");
    }
    Ok(())
}

#[test]
fn the_greatest_text_is_read_and_one_byte_more_is_too_long(rt: HostRuntime) -> Result<(), Fail> {
    let alloc = rt.alloc();
    for (len, answer) in [
        (1_048_575, Ok(1_048_575)),
        (1_048_576, Ok(1_048_576)),
        (1_048_577, Err(ReadAllFault::TooLong)),
        (1_050_000, Err(ReadAllFault::TooLong)),
    ] {
        let text = vec![in alloc; b'\n'; len]?;
        let mut source = MemSource::new(text, 3000, Vec::new(alloc));
        let read = read_all(alloc, &mut source).map(|bytes| bytes.len());
        assert_eq!(rt; read, answer, "{len} bytes");
    }
    Ok(())
}

#[test]
fn a_sink_holds_what_was_written_before_it_failed(rt: HostRuntime) -> Result<(), Fail> {
    let alloc = rt.alloc();
    for (room, at_most, failing, answer, held) in [
        (
            100,
            8,
            [2].as_slice(),
            Err(WriteFault),
            b"ledger 1".as_slice(),
        ),
        (
            10,
            8,
            [].as_slice(),
            Err(WriteFault),
            b"ledger 1\nu".as_slice(),
        ),
        (23, 8, [4].as_slice(), Ok(()), REPORT),
    ] {
        let failing = failing.to_vec(alloc)?;
        let mut sink = MemSink::new(alloc, room, at_most, failing)
            .ok()
            .ok_or("no room")?;
        assert_eq!(rt; write_whole(&mut sink, REPORT), answer);
        assert_eq!(rt; sink.bytes(), held);
    }
    Ok(())
}

#[derive(Drop)]
struct Broken;

impl Read for Broken {
    fn read(&mut self, _buf: &mut [u8]) -> io::Result<usize> {
        Err(io::Error::from(io::ErrorKind::Other))
    }
}

#[test]
fn readers_and_writers_of_std_are_ends(rt: HostRuntime) -> Result<(), Fail> {
    let alloc = rt.alloc();
    let text = read_all(alloc, &mut StdSource::new(REPORT))
        .ok()
        .ok_or("not read")?;
    assert_eq!(rt; text.as_slice(), REPORT);
    let broken = read_all(alloc, &mut StdSource::new(Broken));
    assert_eq!(rt; broken, Err(ReadAllFault::ReadFault));

    let mut written = Vec::new(alloc);
    assert_eq!(rt;
        write_whole(&mut StdSink::new(&mut written), REPORT),
        Ok(())
    );
    assert_eq!(rt; written.as_slice(), REPORT);
    let mut full = [0; 6];
    let mut sink = StdSink::new(full.as_mut_slice());
    assert_eq!(rt; write_whole(&mut sink, REPORT), Err(WriteFault));
    assert_eq!(rt; full.as_slice(), b"ledger".as_slice());
    Ok(())
}
