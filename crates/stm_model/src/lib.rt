//! The types that every crate of the transactional memory speaks of, and its list types.
#![tactic(auto)]

mod access;
pub mod attempt_laws;
mod body;
mod calls;
mod cause;
mod cells;
mod ending;
mod kept_calls;
mod law;
pub mod laws;
mod layout;
mod marks;
mod note;
mod notes;
mod pairs;
pub mod rows;
mod series;
mod settings;
mod shown;
mod sizes;
mod values;
mod word_value;

pub use access::{Access, Ask, Word};
pub use body::{Body, Choices};
pub use calls::{Bell, Hooks, Quiet};
pub use cause::{Addr, Cause, HookPhase};
pub use cells::Cells;
pub use ending::Ending;
pub use kept_calls::KeptCalls;
pub use law::{Free, Law};
pub use layout::TooMany;
pub use marks::{DEEPEST, Level, WriteMark};
pub use meta_word::{Meta, Phase, Policy, TxnStatus};
pub use note::Note;
pub use notes::Notes;
pub use pairs::Pairs;
pub use series::{Memory, Series};
pub use settings::Settings;
pub use shown::{Rest, Shown};
pub use sizes::{BLOCK_CELLS, Layout, MOST_CELLS, MOST_PARTS};
pub use values::{Runs, Values, Words};
pub use word_value::WordValue;
