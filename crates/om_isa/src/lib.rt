//! The 48 instructions of RV32IM: words, values and texts, from one list of rows.
//!
//! Nothing is allocated but a text. Nothing is trusted here; that the list is that of the RISC-V manual is in the definitions.
//!
//! In an order of reading: `rows` (the one list), `inst` (the values), `fields` and `registers` (what they hold), `ext` (RV32I,
//! or with RV32M), `words` (the fields of a word), `decoding`, `encoding`, `text`; `memory` (how many bytes a memory may
//! have), `laws` (the limits, as numbers).
#![tactic(auto)]

pub use decoding::decode;
pub use encoding::encode;
pub use ext::Ext;
pub use fields::{FenceBits, Imm12, Off13, Off21, Reg, Shamt, Upper};
pub use inst::Inst;
pub use memory::{MAX_MEMORY, MIN_MEMORY, is_memory_size};
pub use registers::{REGISTERS, WRITABLE_REGISTERS};
pub use text::WriteFault;

mod decoding;
mod encoding;
mod ext;
mod fields;
mod inst;
pub mod laws;
mod memory;
mod registers;
mod rows;
mod text;
mod words;
