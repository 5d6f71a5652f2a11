//! The line that standard error is told. It takes no memory, so that being out of memory is told too.
ghost use Rattle.std.specs.Prelude.{◌≡◌, ◌≤◌, ◌++◌, ◌∷◌, [], length};
ghost use Rattle.ledger_program.specs.Status.{error_line, reason_word, refusal_line};

use arrayvec::ArrayString;
use itoa::Buffer;
use ledger_host::HostStatus;
use ledger_model::Reason;

/// Room for the longest line.
pub type Line = ArrayString<96>;

const USAGE: &str =
    "usage: ledger trace or run or gen N [--policy P] [--looks N] [--attempts N] [--clock N]\n";

/// The line by how the call ended, with its line feed; nothing where the report was written.
pub fn error_line(status: HostStatus) -> Line
    ensures { result.bytes ≡ error_line status }
{
    match status {
        HostStatus::Done => line(""),
        HostStatus::Usage => line(USAGE),
        HostStatus::Script { line, reason } => refusal_line(line, reason),
        HostStatus::ReadFault => line("ledger: read fault\n"),
        HostStatus::WriteFault => line("ledger: write fault\n"),
        HostStatus::Memory => line("ledger: no memory\n"),
    }
}

fn line(text: &str) -> Line
    requires { length text.now ≤ 96 }
    ensures { result.bytes ≡ text.now }
{
    let mut line = Line::new();
    line.push_str(text);
    line
}

// The line of a refused text, by the number of its first refused line.
fn refusal_line(number: u64, reason: Reason) -> Line
    ensures { result.bytes ≡ refusal_line number reason }
{
    let mut digits = Buffer::new();
    let mut line = Line::new();
    line.push_str("ledger: line ");
    line.push_str(digits.format(number));
    line.push_str(": ");
    line.push_str(reason_word(reason));
    line.push_str("\n");
    line
}

fn reason_word(reason: Reason) -> &'static str
    ensures word { result.now ≡ reason_word reason }
    ensures short { length result.now ≤ 8 }
{
    match reason {
        Reason::Byte => "byte",
        Reason::Head => "head",
        Reason::Word => "word",
        Reason::Unbuilt => "unbuilt",
        Reason::Order => "order",
        Reason::Depth => "depth",
        Reason::Many => "many",
        Reason::Count => "count",
        Reason::Number => "number",
        Reason::Range => "range",
        Reason::Unclosed => "unclosed",
        Reason::Long => "long",
    }
}
