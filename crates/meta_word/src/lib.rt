//! The words of the transactional memory's metadata, packed and unpacked: a cell's metadata word,
//! a caller's status word, and what an attempt does about another's word.
//! Nothing but this crate knows where a field stands in a word, or how wide it is.
#![tactic(auto)]

pub mod laws;
mod meta;
mod policy;
mod status;

pub use meta::{
    CHANGING_BIT, MAX_OWNER, MAX_VERSION, Meta, OWNER_AND_CHANGING_BITS, PENDING_BIT, pack_meta,
    unpack_meta,
};
pub use policy::Policy;
pub use status::{MAX_SERIAL, Phase, TxnStatus, pack_status, unpack_status};

#[cfg(test)]
mod tests;
