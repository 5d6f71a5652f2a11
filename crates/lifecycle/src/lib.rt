//! What an attempt has registered: handlers with their phases, and before-commit bodies, with exact undo.
#![tactic(auto)]

mod cursor;
mod handlers;
mod stage;
mod walk;

pub use cursor::Cursor;
pub use handlers::Handlers;
pub use stage::Stage;
pub use stm_model::{HookPhase, Memory};
pub use walk::Walk;

#[cfg(test)]
mod tests;
