//! Whether a statement emits, by its tree; and the declarations of tables that it may emit to, judged.
#![tactic(auto)]

mod emitting;
mod table;

pub use emitting::{body_emits, is_seen_inside};
pub use table::judge_table_declaration;
