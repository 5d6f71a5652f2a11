//! Refusals of texts that no row of `ledger_texts` has.

use ledger_model::Reason;
use script_text::{ParseFault, parse};
use std::alloc::{AllocError, Global};
use std::test::Fail;

/// The line and the reason of a refusal; none where the text is a job.
fn refusal(alloc: Global, text: &[u8]) -> Result<Option<(u64, Reason)>, AllocError> {
    match parse(alloc, text) {
        Ok(_) => Ok(None),
        Err(ParseFault::Script { line, reason }) => Ok(Some((line, reason))),
        Err(ParseFault::Memory) => Err(AllocError),
    }
}

#[test]
fn every_byte_but_printing_ascii_spaces_and_line_feeds_is_refused(
    rt: HostRuntime,
) -> Result<(), Fail> {
    let alloc = rt.alloc();
    for byte in 0..=255_u8 {
        let may_occur = byte == 10 || (32..=126).contains(&byte);
        let told = if may_occur {
            None
        } else {
            Some((2, Reason::Byte))
        };
        let mut text = Vec::from_slice(alloc, b"stm 1\n#")?;
        text.push(byte)?;
        assert_eq!(rt; refusal(alloc, &text)?, told, "at {byte}");
    }
    Ok(())
}

#[test]
fn a_last_line_counts_without_its_line_feed(rt: HostRuntime) -> Result<(), Fail> {
    let texts: [(&[u8], u64, Reason); 4] = [
        (b"\n\n", 3, Reason::Head),
        (b"# a\n  ", 3, Reason::Head),
        (b"stm 1\nworker\nscript\nprint 1", 5, Reason::Unclosed),
        (b"stm 1\nworker\nscript\n  ", 5, Reason::Unclosed),
    ];
    for (index, (text, line, reason)) in texts.iter().enumerate() {
        let told = Some((*line, *reason));
        assert_eq!(rt; refusal(rt.alloc(), text)?, told, "at text {index}");
    }
    Ok(())
}
