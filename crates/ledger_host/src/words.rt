//! What the words behind the program's name ask for.
ghost use Rattle.std.specs.Prelude.{◌↔◌, map, IsTrue, IsFalse, string_bytes};
ghost use Rattle.ledger_host.specs.Words.{AskFor, AskForSome, Trace};

pub(crate) fn asks_trace(words: &[String]) -> bool
    ensures trace { IsTrue result ↔ AskFor (map string_bytes words.now) Trace }
    ensures others { IsFalse result → ¬ AskForSome (map string_bytes words.now) }
{
    match words {
        [word] => word.as_str() == "trace",
        _ => false,
    }
}
