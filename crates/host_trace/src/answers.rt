//! What an attempt tells its script and its worker, by what it does next.
ghost use Rattle.std.specs.Prelude.{◌≡◌};
ghost use Rattle.host_trace.specs.Tellings.{tells_memory, told_answer, told_ending, told_refusal};

use stm_model::{Cause, Ending};
use world_run::{Next, Reply};

/// What it answers to its script, where it waits for the next request.
pub(crate) fn answer_in(next: Option<Next>) -> Option<u64>
    ensures { result ≡ told_answer next }
{
    match next {
        Some(Next::Reply(Reply::Ready) | Next::Before { .. }) => Some(0),
        Some(Next::Reply(Reply::Value(value))) => Some(value),
        _ => None,
    }
}

/// The cause with which it was refused something.
pub(crate) fn refusal_in(next: Option<Next>) -> Option<Cause>
    ensures { result ≡ told_refusal next }
{
    match next {
        Some(Next::Reply(Reply::Stopped(cause))) => Some(cause),
        _ => None,
    }
}

/// How it ended, where it is over.
pub(crate) fn ending_in(next: Option<Next>) -> Option<Ending>
    ensures { result ≡ told_ending next }
{
    match next {
        Some(Next::Reply(Reply::Ended(ending))) => Some(ending),
        _ => None,
    }
}

/// Whether it was refused something, out of memory.
pub(crate) fn is_out_of_memory(next: Option<Next>) -> bool
    ensures { result ≡ tells_memory next }
{
    matches!(next, Some(Next::Reply(Reply::Stopped(Cause::Memory))))
}
