//! Operators between operands (ISO/IEC 9899:2024, 6.5.6 to 6.5.18).
ghost use Rattle.std.specs.Prelude.{◌≡◌, ◌∷◌, IfOk, MatchOption};
ghost use Rattle.model_grammar.specs.SyntaxExprActions as e;
ghost use Rattle.model_grammar.specs.SyntaxForms as m;
ghost use Rattle.model_grammar.specs.SyntaxValues.{a_token, an_expr};
ghost use Rattle.c_tree.specs.SyntaxViews.{expr_of};
ghost use Rattle.syntax_meanings.specs.Meanings.{meaning_of, symbols_seen};

use crate::operators::{assignment, binary};
use c_tree::{Expr, ExprForm};
use cake_base::NoMemory;
use std::alloc::Global;
use syntax_meanings::{Meaning, Symbols, Token};

/// The expression of the form.
pub(crate) fn expression<'t>(alloc: Global, form: ExprForm) -> Result<Meaning<'t>, NoMemory>
    ensures { IfOk result (λ made. meaning_of made ≡ an_expr (expr_of form)) }
{
    let expr = Expr::new(alloc, form)?;
    Ok(Meaning::Expr(expr))
}

/// An operator, and the operand behind it.
#[derive(Drop)]
struct Operand<'t> {
    sign: Token<'t>,
    right: Expr,
}

/// The operator and the operand that come next; none where no operator with an operand comes next.
#[tactic(auto, using(crate::proofs::Refusals::of_chain))]
fn next_operand<'t>(symbols: &mut Symbols<'t>) -> Option<Operand<'t>>
    ensures { MatchOption result
        ((left : m.Expr) → e.chain left (symbols_seen symbols.old) ≡ left)
        (λ o. symbols_seen symbols.old ≡ a_token o.sign.kind o.sign.token.now.kind o.sign.token.now.place ∷ an_expr o.right ∷ symbols_seen symbols.new) }
{
    let Some(sign) = symbols.token() else {
        return None;
    };
    let Some(right) = symbols.expr() else {
        return None;
    };
    Some(Operand { sign, right })
}

/// The operands behind the first, with the operators between them, from the left.
fn chain<'t>(alloc: Global, first: Expr, symbols: Symbols<'t>) -> Result<Meaning<'t>, NoMemory>
    ensures { IfOk result (λ made. meaning_of made ≡ an_expr (e.chain first (symbols_seen symbols.entry))) }
{
    let mut symbols = symbols;
    let mut left = first;
    while let Some(operand) = next_operand(&mut symbols) {
        let Operand { sign, right } = operand;
        left = Expr::new(alloc, binary(sign.kind, left, right, sign.token.place))?;
    }
    Ok(Meaning::Expr(left))
}

/// Operands with operators between them, from the left.
#[tactic(auto, using(crate::proofs::Refusals::of_chained))]
pub fn chained<'t>(alloc: Global, symbols: Symbols<'t>) -> Result<Meaning<'t>, NoMemory>
    ensures { IfOk result (λ made. meaning_of made ≡ e.chained (symbols_seen symbols.entry)) }
{
    let mut symbols = symbols;
    let Some(first) = symbols.expr() else {
        return Ok(Meaning::Nothing);
    };
    chain(alloc, first, symbols)
}

/// An assignment, or what stands in its place (6.5.17).
#[tactic(auto, using(crate::proofs::Refusals::of_assigned))]
pub fn assigned<'t>(alloc: Global, symbols: Symbols<'t>) -> Result<Meaning<'t>, NoMemory>
    ensures { IfOk result (λ made. meaning_of made ≡ e.assigned (symbols_seen symbols.entry)) }
{
    let mut symbols = symbols;
    let Some(left) = symbols.expr() else {
        return Ok(Meaning::Nothing);
    };
    if symbols.is_empty() {
        return Ok(Meaning::Expr(left));
    }
    let Some(sign) = symbols.token() else {
        return Ok(Meaning::Nothing);
    };
    let Some(right) = symbols.expr() else {
        return Ok(Meaning::Nothing);
    };
    if !symbols.is_empty() {
        return Ok(Meaning::Nothing);
    }
    expression(alloc, assignment(sign.kind, left, right, sign.token.place))
}
