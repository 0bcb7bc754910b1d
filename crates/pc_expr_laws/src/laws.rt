//! The law of the view `expr`.

ghost use Rattle.pc_expr_laws.specs.Law.{ExpressionLaw};

/// The types that the view `expr` shows of an expression and of those below it are those that are told of it on the way down from the
/// statement part that it stands in; of a place without an expression there are none.
pub fn expressions_show_what_is_told()
    ensures { ExpressionLaw }
{}
