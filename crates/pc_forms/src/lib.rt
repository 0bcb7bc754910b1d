//! What a node of a syntax tree is, with its parts by their names.
//!
//! Start at `form_of`, which answers a `Form`: an arm for each kind of node, as `Form::While { condition, body }`. What a form
//! is stands in `Form` of `specs/`; definitions over trees are written by forms with `fold` of `Fold`. `Statement` and
//! `Expression` are nodes that are known to be such, with forms of their own.
#![tactic(auto)]

mod expression;
mod expression_form;
mod form;
mod kids;
mod operator;
mod statement;
mod statement_form;
mod statements;
mod view;

pub use expression::Expression;
pub use expression_form::ExpressionForm;
pub use form::Form;
pub use operator::{AddOperator, MulOperator, RelOperator, Sign};
pub use statement::Statement;
pub use statement_form::StatementForm;
pub use statements::Statements;
pub use view::form_of;
