//! The forms that are built last, in expressions and in what these consist of, as they are read.
ghost use Rattle.std.specs.Prelude.{◌≡◌};
ghost use Rattle.model_grammar.specs.SyntaxForms as m;
ghost use Rattle.model_scopes.specs.Declaring.{or_place};
ghost use Rattle.model_checking.specs.LaterForms as later;
ghost use Rattle.c_tree.specs.SyntaxTrees.{expr_tree, type_name_tree, specs_tree, declarator_tree, initializer_tree};
ghost use Rattle.c_tree.specs.SyntaxViews as v;

use c_tree::{
    Assertion, Braces, Declarator, DeclaratorForm, Designator, Enumerator, Expr, ExprForm,
    Initializer, InitializerForm, InitializerItem, MemberDeclaration, Parameter, Spec, Specs,
    Suffix, TypeName,
};
use cake_base::Place;
use model_grammar::syntax::StorageWord;

#[cycle(expression)]
pub(crate) fn in_expr(expr: &Expr) -> Option<Place>
    ensures { result ≡ later.in_expr (expr_tree expr.now) }
{
    match expr.form() {
        ExprForm::Identifier(_) => None,
        ExprForm::Constant { .. } => None,
        ExprForm::Text { .. } => None,
        ExprForm::Truth { .. } => None,
        ExprForm::Nullptr(place) => Some(*place),
        ExprForm::Parenthesized { inner, .. } => in_expr(inner),
        ExprForm::CompoundLiteral { name, values, .. } => in_literal(name, values),
        ExprForm::FunctionLiteral { place, .. } => Some(*place),
        ExprForm::Index { array, index, .. } => in_both(array, index),
        ExprForm::Call {
            function,
            arguments,
            ..
        } => in_call(function, arguments.as_slice()),
        ExprForm::Member { structure, .. } => in_expr(structure),
        ExprForm::Arrow { pointer, .. } => in_expr(pointer),
        ExprForm::Step { operand, .. } => in_expr(operand),
        ExprForm::Unary { operand, .. } => in_expr(operand),
        ExprForm::SizeofExpr { operand, .. } => in_expr(operand),
        ExprForm::SizeofType { name, .. } => in_type_name(name),
        ExprForm::Alignof { name, .. } => in_type_name(name),
        ExprForm::Cast { name, operand, .. } => in_cast(name, operand),
        ExprForm::Binary { left, right, .. } => in_both(left, right),
        ExprForm::Logic { left, right, .. } => in_both(left, right),
        ExprForm::Conditional {
            condition,
            first,
            second,
            ..
        } => in_conditional(condition, first, second),
        ExprForm::Assign { left, right, .. } => in_both(left, right),
        ExprForm::AssignBy { left, right, .. } => in_both(left, right),
        ExprForm::Comma { first, second, .. } => in_both(first, second),
    }
}

#[cycle(expression)]
fn in_both(left: &Expr, right: &Expr) -> Option<Place>
    ensures { result ≡ or_place (later.in_expr (expr_tree left.now)) (later.in_expr (expr_tree right.now)) }
{
    match in_expr(left) {
        Some(place) => Some(place),
        None => in_expr(right),
    }
}

#[cycle(expression)]
fn in_conditional(condition: &Expr, first: &Expr, second: &Expr) -> Option<Place>
    ensures { result ≡ or_place (later.in_expr (expr_tree condition.now)) (or_place (later.in_expr (expr_tree first.now)) (later.in_expr (expr_tree second.now))) }
{
    match in_expr(condition) {
        Some(place) => Some(place),
        None => in_both(first, second),
    }
}

#[cycle(expression)]
fn in_call(function: &Expr, arguments: &[Expr]) -> Option<Place>
    ensures { result ≡ or_place (later.in_expr (expr_tree function.now)) (later.in_exprs (m.exprs arguments.now)) }
{
    match in_expr(function) {
        Some(place) => Some(place),
        None => in_exprs(arguments),
    }
}

#[cycle(expression)]
fn in_cast(name: &TypeName, operand: &Expr) -> Option<Place>
    ensures { result ≡ or_place (later.in_type_name (type_name_tree name.now)) (later.in_expr (expr_tree operand.now)) }
{
    match in_type_name(name) {
        Some(place) => Some(place),
        None => in_expr(operand),
    }
}

#[cycle(expression)]
fn in_literal(name: &TypeName, values: &Braces) -> Option<Place>
    ensures { result ≡ or_place (later.in_type_name (type_name_tree name.now)) (later.in_braces (v.braces_of values.now)) }
{
    match in_type_name(name) {
        Some(place) => Some(place),
        None => in_braces(values),
    }
}

#[cycle(expression)]
fn in_exprs(exprs: &[Expr]) -> Option<Place>
    ensures { result ≡ later.in_exprs (m.exprs exprs.now) }
{
    for expr in exprs {
        if let Some(place) = in_expr(expr) {
            return Some(place);
        }
    }
    None
}

#[cycle(expression)]
pub(crate) fn in_maybe_expr(expr: &Option<Expr>) -> Option<Place>
    ensures { result ≡ later.in_maybe_expr (v.maybe_expr_of expr.now) }
{
    match expr {
        Some(expr) => in_expr(expr),
        None => None,
    }
}

#[cycle(expression)]
fn in_type_name(name: &TypeName) -> Option<Place>
    ensures { result ≡ later.in_type_name (type_name_tree name.now) }
{
    let form = name.form();
    match in_specs(&form.specs) {
        Some(place) => Some(place),
        None => in_declarator(&form.declarator),
    }
}

#[cycle(expression)]
fn in_spec(spec: &Spec) -> Option<Place>
    ensures { result ≡ later.in_spec (v.spec_of spec.now) }
{
    match spec {
        Spec::Storage { word, place } => later_word(*word, *place),
        Spec::Function { .. } => None,
        Spec::Keyword { .. } => None,
        Spec::Qualifier(_) => None,
        Spec::StructTag { .. } => None,
        Spec::Struct { members, .. } => in_member_declarations(members.as_slice()),
        Spec::EnumTag { fixed, .. } => in_maybe_specs(fixed),
        Spec::Enum {
            fixed,
            enumerators,
            ..
        } => in_enum(fixed, enumerators.as_slice()),
        Spec::TypedefName(_) => None,
        Spec::TypeofExpr { place, .. } => Some(*place),
        Spec::TypeofType { place, .. } => Some(*place),
    }
}

#[cycle(expression)]
fn in_enum(fixed: &Option<Specs>, enumerators: &[Enumerator]) -> Option<Place>
    ensures { result ≡ or_place (later.in_maybe_specs (v.maybe_specs_of fixed.now)) (later.in_enumerators (v.enumerators_of enumerators.now)) }
{
    match in_maybe_specs(fixed) {
        Some(place) => Some(place),
        None => in_enumerators(enumerators),
    }
}

#[cycle(expression)]
pub(crate) fn in_specs(specs: &Specs) -> Option<Place>
    ensures { result ≡ later.in_specs (specs_tree specs.now) }
{
    in_spec_list(specs.form().specs.as_slice())
}

#[cycle(expression)]
fn in_spec_list(specs: &[Spec]) -> Option<Place>
    ensures { result ≡ later.in_specs (v.specs_items specs.now) }
{
    for spec in specs {
        if let Some(place) = in_spec(spec) {
            return Some(place);
        }
    }
    None
}

#[cycle(expression)]
fn in_maybe_specs(specs: &Option<Specs>) -> Option<Place>
    ensures { result ≡ later.in_maybe_specs (v.maybe_specs_of specs.now) }
{
    match specs {
        Some(specs) => in_specs(specs),
        None => None,
    }
}

#[cycle(expression)]
fn in_member_declaration(member: &MemberDeclaration) -> Option<Place>
    ensures { result ≡ later.in_member_declaration (v.member_declaration_of member.now) }
{
    match member {
        MemberDeclaration::Declarators { specs, declarators } => in_members(
            specs,
            declarators.as_slice(),
        ),
        MemberDeclaration::Assertion(assertion) => in_assertion(assertion),
    }
}

#[cycle(expression)]
fn in_members(specs: &Specs, declarators: &[Declarator]) -> Option<Place>
    ensures { result ≡ or_place (later.in_specs (specs_tree specs.now)) (later.in_declarators (m.declarators declarators.now)) }
{
    match in_specs(specs) {
        Some(place) => Some(place),
        None => in_declarators(declarators),
    }
}

#[cycle(expression)]
fn in_member_declarations(members: &[MemberDeclaration]) -> Option<Place>
    ensures { result ≡ later.in_member_declarations (v.member_declarations_of members.now) }
{
    for member in members {
        if let Some(place) = in_member_declaration(member) {
            return Some(place);
        }
    }
    None
}

#[cycle(expression)]
fn in_enumerator(enumerator: &Enumerator) -> Option<Place>
    ensures { result ≡ later.in_enumerator (v.enumerator_of enumerator.now) }
{
    in_maybe_expr(&enumerator.value)
}

#[cycle(expression)]
fn in_enumerators(enumerators: &[Enumerator]) -> Option<Place>
    ensures { result ≡ later.in_enumerators (v.enumerators_of enumerators.now) }
{
    for enumerator in enumerators {
        if let Some(place) = in_enumerator(enumerator) {
            return Some(place);
        }
    }
    None
}

#[cycle(expression)]
pub(crate) fn in_declarator(declarator: &Declarator) -> Option<Place>
    ensures { result ≡ later.in_declarator (declarator_tree declarator.now) }
{
    match declarator.form() {
        DeclaratorForm::Named { suffixes, .. } => in_suffixes(suffixes.as_slice()),
        DeclaratorForm::Unnamed { suffixes, .. } => in_suffixes(suffixes.as_slice()),
        DeclaratorForm::Grouped {
            inner,
            suffixes,
            ..
        } => in_grouped(inner, suffixes.as_slice()),
    }
}

#[cycle(expression)]
fn in_grouped(inner: &Declarator, suffixes: &[Suffix]) -> Option<Place>
    ensures { result ≡ or_place (later.in_declarator (declarator_tree inner.now)) (later.in_suffixes (v.suffixes_of suffixes.now)) }
{
    match in_declarator(inner) {
        Some(place) => Some(place),
        None => in_suffixes(suffixes),
    }
}

#[cycle(expression)]
fn in_declarators(declarators: &[Declarator]) -> Option<Place>
    ensures { result ≡ later.in_declarators (m.declarators declarators.now) }
{
    for declarator in declarators {
        if let Some(place) = in_declarator(declarator) {
            return Some(place);
        }
    }
    None
}

#[cycle(expression)]
fn in_suffix(suffix: &Suffix) -> Option<Place>
    ensures { result ≡ later.in_suffix (v.suffix_of suffix.now) }
{
    match suffix {
        Suffix::Array { length, .. } => in_maybe_expr(length),
        Suffix::Function { parameters, .. } => in_parameters(parameters.as_slice()),
    }
}

#[cycle(expression)]
fn in_suffixes(suffixes: &[Suffix]) -> Option<Place>
    ensures { result ≡ later.in_suffixes (v.suffixes_of suffixes.now) }
{
    for suffix in suffixes {
        if let Some(place) = in_suffix(suffix) {
            return Some(place);
        }
    }
    None
}

#[cycle(expression)]
fn in_parameter(parameter: &Parameter) -> Option<Place>
    ensures { result ≡ later.in_parameter (v.parameter_of parameter.now) }
{
    match in_specs(&parameter.specs) {
        Some(place) => Some(place),
        None => in_declarator(&parameter.declarator),
    }
}

#[cycle(expression)]
fn in_parameters(parameters: &[Parameter]) -> Option<Place>
    ensures { result ≡ later.in_parameters (v.parameters_of parameters.now) }
{
    for parameter in parameters {
        if let Some(place) = in_parameter(parameter) {
            return Some(place);
        }
    }
    None
}

#[cycle(expression)]
pub(crate) fn in_initializer(initializer: &Initializer) -> Option<Place>
    ensures { result ≡ later.in_initializer (initializer_tree initializer.now) }
{
    match initializer.form() {
        InitializerForm::Expr(value) => in_expr(value),
        InitializerForm::Braces(values) => in_braces(values),
    }
}

#[cycle(expression)]
fn in_braces(values: &Braces) -> Option<Place>
    ensures { result ≡ later.in_braces (v.braces_of values.now) }
{
    in_initializer_items(values.items.as_slice())
}

#[cycle(expression)]
fn in_initializer_item(item: &InitializerItem) -> Option<Place>
    ensures { result ≡ later.in_initializer_item (v.initializer_item_of item.now) }
{
    match in_designators(item.designators.as_slice()) {
        Some(place) => Some(place),
        None => in_initializer(&item.value),
    }
}

#[cycle(expression)]
fn in_initializer_items(items: &[InitializerItem]) -> Option<Place>
    ensures { result ≡ later.in_initializer_items (v.initializer_items_of items.now) }
{
    for item in items {
        if let Some(place) = in_initializer_item(item) {
            return Some(place);
        }
    }
    None
}

#[cycle(expression)]
fn in_designator(designator: &Designator) -> Option<Place>
    ensures { result ≡ later.in_designator (v.designator_of designator.now) }
{
    match designator {
        Designator::Element { index, .. } => in_expr(index),
        Designator::Member { .. } => None,
    }
}

#[cycle(expression)]
fn in_designators(designators: &[Designator]) -> Option<Place>
    ensures { result ≡ later.in_designators (v.designators_of designators.now) }
{
    for designator in designators {
        if let Some(place) = in_designator(designator) {
            return Some(place);
        }
    }
    None
}

#[cycle(expression)]
pub(crate) fn in_assertion(assertion: &Assertion) -> Option<Place>
    ensures { result ≡ later.in_assertion (v.assertion_of assertion.now) }
{
    in_expr(&assertion.condition)
}

fn later_word(word: StorageWord, place: Place) -> Option<Place>
    ensures { result ≡ later.later_word word place }
{
    match word {
        StorageWord::Typedef => None,
        StorageWord::Extern => None,
        StorageWord::Static => None,
        StorageWord::Auto => Some(place),
        StorageWord::Register => None,
        StorageWord::Constexpr => Some(place),
    }
}
