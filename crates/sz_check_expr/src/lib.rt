//! From the syntax tree of an expression to the checked one, or to the first refusal in it.
#![tactic(auto)]

mod agreement;
mod asks;
mod call;
mod composite;
mod expr;
mod literal;
mod operator;
mod path;
mod rows;

pub use agreement::{agree, agrees, converted, counted};
pub use asks::Asks;
pub use expr::{judge_call, judge_exp, judge_exps};
pub use operator::test;
pub use path::{field_in, whole};
pub use rows::{alike, difference_row, sum_row};
