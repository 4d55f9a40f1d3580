//! How deep forms are, from the depths that the nodes in them keep. None of these calls itself.
ghost use Rattle.std.specs.Prelude.{◌≡◌, ℕ, ◌+◌, max};
ghost use Rattle.model_grammar.specs.SyntaxForms as m;
ghost use Rattle.c_tree.specs.SyntaxDepth as d;
ghost use Rattle.c_tree.specs.SyntaxDepth.{capped};
ghost use Rattle.c_tree.specs.SyntaxViews.{assertion_of, block_item_of, block_items_of, block_of, braces_of, declaration_of, declarator_of, designator_of, designators_of, enumerator_of, enumerators_of, expr_of, external_of, externals_of, init_declarator_of, init_declarators_of, initializer_item_of, initializer_items_of, initializer_of, maybe_declaration_of, maybe_expr_of, maybe_initializer_of, maybe_specs_of, maybe_statement_of, member_declaration_of, member_declarations_of, parameter_of, parameters_of, spec_of, specs_items, specs_of, statement_of, suffix_of, suffixes_of, tree_of_form, type_name_of};

use crate::syntax_declarations::{Assertion, Declaration, DeclarationForm, InitDeclarator};
use crate::syntax_declarators::{Declarator, DeclaratorForm, Parameter, Suffix};
use crate::syntax_expressions::{Expr, ExprForm};
use crate::syntax_initializers::{
    Braces, Designator, Initializer, InitializerForm, InitializerItem,
};
use crate::syntax_specifiers::{
    Enumerator, MemberDeclaration, Spec, Specs, SpecsForm, TypeNameForm,
};
use crate::syntax_statements::{Block, BlockItem, Statement, StatementForm};
use crate::syntax_unit::{External, TreeForm};
use sqlite_items::Items;

pub(crate) fn expr_form_depth(form: &ExprForm) -> u32
    ensures { result ≡ capped (d.expr_depth (expr_of form.now)) }
{
    match form {
        ExprForm::Identifier(_) => 1,
        ExprForm::Constant { .. } => 1,
        ExprForm::Text { .. } => 1,
        ExprForm::Truth { .. } => 1,
        ExprForm::Nullptr(_) => 1,
        ExprForm::Parenthesized { inner, .. } => above(inner.depth()),
        ExprForm::CompoundLiteral { name, values, .. } => above(deeper(
            name.depth(),
            braces_depth(values),
        )),
        ExprForm::FunctionLiteral { name, body, .. } => above(deeper(
            name.depth(),
            block_depth(body),
        )),
        ExprForm::Index { array, index, .. } => above(deeper(array.depth(), index.depth())),
        ExprForm::Call {
            function,
            arguments,
            ..
        } => above(deeper(function.depth(), exprs_depth(arguments))),
        ExprForm::Member { structure, .. } => above(structure.depth()),
        ExprForm::Arrow { pointer, .. } => above(pointer.depth()),
        ExprForm::Step { operand, .. } => above(operand.depth()),
        ExprForm::Unary { operand, .. } => above(operand.depth()),
        ExprForm::SizeofExpr { operand, .. } => above(operand.depth()),
        ExprForm::SizeofType { name, .. } => above(name.depth()),
        ExprForm::Alignof { name, .. } => above(name.depth()),
        ExprForm::Cast { name, operand, .. } => above(deeper(name.depth(), operand.depth())),
        ExprForm::Binary { left, right, .. } => above(deeper(left.depth(), right.depth())),
        ExprForm::Logic { left, right, .. } => above(deeper(left.depth(), right.depth())),
        ExprForm::Conditional {
            condition,
            first,
            second,
            ..
        } => above(deeper(condition.depth(), deeper(first.depth(), second.depth()))),
        ExprForm::Assign { left, right, .. } => above(deeper(left.depth(), right.depth())),
        ExprForm::AssignBy { left, right, .. } => above(deeper(left.depth(), right.depth())),
        ExprForm::Comma { first, second, .. } => above(deeper(first.depth(), second.depth())),
    }
}

fn exprs_depth(exprs: &Items<Expr>) -> u32
    ensures { result ≡ capped (d.exprs_depth (m.exprs exprs.now)) }
{
    let mut depth = 0;
    for expr in exprs.as_slice() {
        depth = deeper(depth, expr.depth());
    }
    depth
}

fn maybe_expr_depth(expr: &Option<Expr>) -> u32
    ensures { result ≡ capped (d.maybe_expr_depth (maybe_expr_of expr.now)) }
{
    match expr {
        Some(expr) => expr.depth(),
        None => 0,
    }
}

pub(crate) fn type_name_form_depth(form: &TypeNameForm) -> u32
    ensures { result ≡ capped (d.type_name_depth (type_name_of form.now)) }
{
    above(deeper(form.specs.depth(), form.declarator.depth()))
}

fn spec_depth(spec: &Spec) -> u32
    ensures { result ≡ capped (d.spec_depth (spec_of spec.now)) }
{
    match spec {
        Spec::Storage { .. } => 1,
        Spec::Function { .. } => 1,
        Spec::Keyword { .. } => 1,
        Spec::Qualifier(_) => 1,
        Spec::StructTag { .. } => 1,
        Spec::Struct { members, .. } => above(member_declarations_depth(members)),
        Spec::EnumTag { fixed, .. } => above(maybe_specs_depth(fixed)),
        Spec::Enum {
            fixed,
            enumerators,
            ..
        } => above(deeper(maybe_specs_depth(fixed), enumerators_depth(enumerators))),
        Spec::TypedefName(_) => 1,
        Spec::TypeofExpr { operand, .. } => above(operand.depth()),
        Spec::TypeofType { name, .. } => above(name.depth()),
    }
}

fn spec_list_depth(specs: &Items<Spec>) -> u32
    ensures { result ≡ capped (d.specs_depth (specs_items specs.now)) }
{
    let mut depth = 0;
    for spec in specs.as_slice() {
        depth = deeper(depth, spec_depth(spec));
    }
    depth
}

pub(crate) fn specs_form_depth(form: &SpecsForm) -> u32
    ensures { result ≡ capped (d.specs_depth (specs_of form.now)) }
{
    spec_list_depth(&form.specs)
}

fn maybe_specs_depth(specs: &Option<Specs>) -> u32
    ensures { result ≡ capped (d.maybe_specs_depth (maybe_specs_of specs.now)) }
{
    match specs {
        Some(specs) => specs.depth(),
        None => 0,
    }
}

fn member_declaration_depth(member_declaration: &MemberDeclaration) -> u32
    ensures { result ≡ capped (d.member_declaration_depth (member_declaration_of member_declaration.now)) }
{
    match member_declaration {
        MemberDeclaration::Declarators { specs, declarators } => above(deeper(
            specs.depth(),
            declarators_depth(declarators),
        )),
        MemberDeclaration::Assertion(assertion) => above(assertion_depth(assertion)),
    }
}

fn member_declarations_depth(member_declarations: &Items<MemberDeclaration>) -> u32
    ensures { result ≡ capped (d.member_declarations_depth (member_declarations_of member_declarations.now)) }
{
    let mut depth = 0;
    for member_declaration in member_declarations.as_slice() {
        depth = deeper(depth, member_declaration_depth(member_declaration));
    }
    depth
}

fn enumerator_depth(enumerator: &Enumerator) -> u32
    ensures { result ≡ capped (d.enumerator_depth (enumerator_of enumerator.now)) }
{
    above(maybe_expr_depth(&enumerator.value))
}

fn enumerators_depth(enumerators: &Items<Enumerator>) -> u32
    ensures { result ≡ capped (d.enumerators_depth (enumerators_of enumerators.now)) }
{
    let mut depth = 0;
    for enumerator in enumerators.as_slice() {
        depth = deeper(depth, enumerator_depth(enumerator));
    }
    depth
}

pub(crate) fn declarator_form_depth(form: &DeclaratorForm) -> u32
    ensures { result ≡ capped (d.declarator_depth (declarator_of form.now)) }
{
    match form {
        DeclaratorForm::Named { suffixes, .. } => above(suffixes_depth(suffixes)),
        DeclaratorForm::Unnamed { suffixes, .. } => above(suffixes_depth(suffixes)),
        DeclaratorForm::Grouped {
            inner,
            suffixes,
            ..
        } => above(deeper(inner.depth(), suffixes_depth(suffixes))),
    }
}

fn declarators_depth(declarators: &Items<Declarator>) -> u32
    ensures { result ≡ capped (d.declarators_depth (m.declarators declarators.now)) }
{
    let mut depth = 0;
    for declarator in declarators.as_slice() {
        depth = deeper(depth, declarator.depth());
    }
    depth
}

fn suffix_depth(suffix: &Suffix) -> u32
    ensures { result ≡ capped (d.suffix_depth (suffix_of suffix.now)) }
{
    match suffix {
        Suffix::Array { length, .. } => above(maybe_expr_depth(length)),
        Suffix::Function { parameters, .. } => above(parameters_depth(parameters)),
    }
}

fn suffixes_depth(suffixes: &Items<Suffix>) -> u32
    ensures { result ≡ capped (d.suffixes_depth (suffixes_of suffixes.now)) }
{
    let mut depth = 0;
    for suffix in suffixes.as_slice() {
        depth = deeper(depth, suffix_depth(suffix));
    }
    depth
}

fn parameter_depth(parameter: &Parameter) -> u32
    ensures { result ≡ capped (d.parameter_depth (parameter_of parameter.now)) }
{
    above(deeper(parameter.specs.depth(), parameter.declarator.depth()))
}

fn parameters_depth(parameters: &Items<Parameter>) -> u32
    ensures { result ≡ capped (d.parameters_depth (parameters_of parameters.now)) }
{
    let mut depth = 0;
    for parameter in parameters.as_slice() {
        depth = deeper(depth, parameter_depth(parameter));
    }
    depth
}

pub(crate) fn initializer_form_depth(form: &InitializerForm) -> u32
    ensures { result ≡ capped (d.initializer_depth (initializer_of form.now)) }
{
    match form {
        InitializerForm::Expr(value) => above(value.depth()),
        InitializerForm::Braces(values) => above(braces_depth(values)),
    }
}

fn maybe_initializer_depth(initializer: &Option<Initializer>) -> u32
    ensures { result ≡ capped (d.maybe_initializer_depth (maybe_initializer_of initializer.now)) }
{
    match initializer {
        Some(initializer) => initializer.depth(),
        None => 0,
    }
}

fn braces_depth(braces: &Braces) -> u32
    ensures { result ≡ capped (d.braces_depth (braces_of braces.now)) }
{
    above(initializer_items_depth(&braces.items))
}

fn initializer_item_depth(initializer_item: &InitializerItem) -> u32
    ensures { result ≡ capped (d.initializer_item_depth (initializer_item_of initializer_item.now)) }
{
    above(deeper(
        designators_depth(&initializer_item.designators),
        initializer_item.value.depth(),
    ))
}

fn initializer_items_depth(initializer_items: &Items<InitializerItem>) -> u32
    ensures { result ≡ capped (d.initializer_items_depth (initializer_items_of initializer_items.now)) }
{
    let mut depth = 0;
    for initializer_item in initializer_items.as_slice() {
        depth = deeper(depth, initializer_item_depth(initializer_item));
    }
    depth
}

fn designator_depth(designator: &Designator) -> u32
    ensures { result ≡ capped (d.designator_depth (designator_of designator.now)) }
{
    match designator {
        Designator::Element { index, .. } => above(index.depth()),
        Designator::Member { .. } => 1,
    }
}

fn designators_depth(designators: &Items<Designator>) -> u32
    ensures { result ≡ capped (d.designators_depth (designators_of designators.now)) }
{
    let mut depth = 0;
    for designator in designators.as_slice() {
        depth = deeper(depth, designator_depth(designator));
    }
    depth
}

pub(crate) fn declaration_form_depth(form: &DeclarationForm) -> u32
    ensures { result ≡ capped (d.declaration_depth (declaration_of form.now)) }
{
    match form {
        DeclarationForm::Simple { specs, declarators } => above(deeper(
            specs.depth(),
            init_declarators_depth(declarators),
        )),
        DeclarationForm::Assertion(assertion) => above(assertion_depth(assertion)),
        DeclarationForm::Attributes => 1,
    }
}

fn maybe_declaration_depth(declaration: &Option<Declaration>) -> u32
    ensures { result ≡ capped (d.maybe_declaration_depth (maybe_declaration_of declaration.now)) }
{
    match declaration {
        Some(declaration) => declaration.depth(),
        None => 0,
    }
}

fn init_declarator_depth(init_declarator: &InitDeclarator) -> u32
    ensures { result ≡ capped (d.init_declarator_depth (init_declarator_of init_declarator.now)) }
{
    above(deeper(
        init_declarator.declarator.depth(),
        maybe_initializer_depth(&init_declarator.initializer),
    ))
}

fn init_declarators_depth(init_declarators: &Items<InitDeclarator>) -> u32
    ensures { result ≡ capped (d.init_declarators_depth (init_declarators_of init_declarators.now)) }
{
    let mut depth = 0;
    for init_declarator in init_declarators.as_slice() {
        depth = deeper(depth, init_declarator_depth(init_declarator));
    }
    depth
}

fn assertion_depth(assertion: &Assertion) -> u32
    ensures { result ≡ capped (d.assertion_depth (assertion_of assertion.now)) }
{
    above(assertion.condition.depth())
}

pub(crate) fn statement_form_depth(form: &StatementForm) -> u32
    ensures { result ≡ capped (d.statement_depth (statement_of form.now)) }
{
    match form {
        StatementForm::Expression { value, .. } => above(maybe_expr_depth(value)),
        StatementForm::Compound { body, .. } => above(block_depth(body)),
        StatementForm::If {
            declaration,
            condition,
            first,
            second,
            ..
        } => above(deeper(
            maybe_declaration_depth(declaration),
            deeper(
                condition.depth(),
                deeper(first.depth(), maybe_statement_depth(second)),
            ),
        )),
        StatementForm::Switch { value, body, .. } => above(deeper(value.depth(), body.depth())),
        StatementForm::While {
            condition,
            body,
            ..
        } => above(deeper(condition.depth(), body.depth())),
        StatementForm::DoWhile {
            body,
            condition,
            ..
        } => above(deeper(body.depth(), condition.depth())),
        StatementForm::For {
            first,
            condition,
            step,
            body,
            ..
        } => above(deeper(
            maybe_expr_depth(first),
            deeper(
                maybe_expr_depth(condition),
                deeper(maybe_expr_depth(step), body.depth()),
            ),
        )),
        StatementForm::ForDeclaration {
            declaration,
            condition,
            step,
            body,
            ..
        } => above(deeper(
            declaration.depth(),
            deeper(
                maybe_expr_depth(condition),
                deeper(maybe_expr_depth(step), body.depth()),
            ),
        )),
        StatementForm::Break { .. } => 1,
        StatementForm::Continue { .. } => 1,
        StatementForm::Return { value, .. } => above(maybe_expr_depth(value)),
        StatementForm::Defer { body, .. } => above(body.depth()),
    }
}

fn maybe_statement_depth(statement: &Option<Statement>) -> u32
    ensures { result ≡ capped (d.maybe_statement_depth (maybe_statement_of statement.now)) }
{
    match statement {
        Some(statement) => statement.depth(),
        None => 0,
    }
}

fn block_item_depth(block_item: &BlockItem) -> u32
    ensures { result ≡ capped (d.block_item_depth (block_item_of block_item.now)) }
{
    match block_item {
        BlockItem::Declaration(declaration) => above(declaration.depth()),
        BlockItem::Case { value, .. } => above(value.depth()),
        BlockItem::Default(_) => 1,
        BlockItem::Statement(statement) => above(statement.depth()),
    }
}

fn block_items_depth(block_items: &Items<BlockItem>) -> u32
    ensures { result ≡ capped (d.block_items_depth (block_items_of block_items.now)) }
{
    let mut depth = 0;
    for block_item in block_items.as_slice() {
        depth = deeper(depth, block_item_depth(block_item));
    }
    depth
}

fn block_depth(block: &Block) -> u32
    ensures { result ≡ capped (d.block_depth (block_of block.now)) }
{
    above(block_items_depth(&block.items))
}

fn external_depth(external: &External) -> u32
    ensures { result ≡ capped (d.external_depth (external_of external.now)) }
{
    match external {
        External::Function {
            specs,
            declarator,
            body,
        } => above(deeper(specs.depth(), deeper(declarator.depth(), block_depth(body)))),
        External::Declaration(declaration) => above(declaration.depth()),
    }
}

/// How deep a unit of these parts is, or the greatest number where it is deeper.
pub(crate) fn unit_form_depth(form: &TreeForm) -> u32
    ensures { result ≡ capped (d.unit_depth (tree_of_form form.now)) }
{
    above(externals_depth(&form.externals))
}

fn externals_depth(externals: &Items<External>) -> u32
    ensures { result ≡ capped (d.externals_depth (externals_of externals.now)) }
{
    let mut depth = 0;
    for external in externals.as_slice() {
        depth = deeper(depth, external_depth(external));
    }
    depth
}

/// One more, up to the greatest number.
fn above(depth: u32) -> u32
    ensures { (parts : ℕ) → depth ≡ capped parts → result ≡ capped (1 + parts) }
{
    depth.saturating_add(1)
}

/// The greater of two.
fn deeper(first: u32, second: u32) -> u32
    ensures { result ≡ max first second }
{
    if first < second { second } else { first }
}
