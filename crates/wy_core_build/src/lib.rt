//! Nodes of the core tree as a pass makes them, each told by what it stands for.
//!
//! `types`, `expressions` and `statements` make a node of each form from its parts, and `instances` makes the
//! clauses of a property once more for a use of it, with arguments for its parameters.
#![tactic(auto)]

mod expressions;
mod instances;
mod statements;
mod types;

pub use expressions::{
    binary, call, denied, field, index, int, is, len, list, neg, null, quant, record, repeat,
    truth, var,
};
pub use instances::{instance, joined};
pub use statements::{
    assert_stmt, assign, break_stmt, call_stmt, continue_stmt, declare, fail_stmt, field_step,
    if_stmt, index_step, return_stmt, skip_stmt, while_stmt,
};
pub use types::{
    any_ty, array_ty, bool_ty, int_ty, inter_ty, named_ty, not_ty, null_ty, record_ty, union_ty,
    void_ty,
};
