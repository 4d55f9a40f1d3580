//! Each making and copying call of the grammar's trees answers, and a copy is as deep as what was made.
use crate::{
    Declaration, DeclarationForm, Declarator, DeclaratorForm, Expr, ExprForm, External,
    Initializer, InitializerForm, Span, Spec, Specs, SpecsForm, Statement, StatementForm, Tree,
    TreeForm, TypeName, TypeNameForm,
};
use cake_base::{NoMemory, Place};
use model_grammar::syntax::TypeWord;
use sqlite_items::Items;
use std::alloc::Global;

const HERE: Place = Place {
    file: 0,
    line: 1,
    column: 1,
    order: 0,
};

const SPAN: Span = Span {
    first: HERE,
    last: HERE,
};

/// The nodes of which a copy is made.
#[derive(Clone, Copy)]
enum Node {
    /// `nullptr` in so many parentheses.
    Parenthesized(u32),
    Specs,
    Declarator,
    TypeName,
    Initializer,
    Declaration,
    Statement,
    Unit,
}

/// Each node with the depth of its copy.
const NODES: [(Node, u32); 9] = [
    (Node::Parenthesized(0), 1),
    (Node::Parenthesized(1_000), 1_001),
    (Node::Specs, 1),
    (Node::Declarator, 1),
    (Node::TypeName, 2),
    (Node::Initializer, 2),
    (Node::Declaration, 2),
    (Node::Statement, 2),
    (Node::Unit, 4),
];

fn parenthesized(alloc: Global, count: u32) -> Result<Expr, NoMemory> {
    let mut made = Expr::new(alloc, ExprForm::Nullptr(HERE))?;
    for _ in 0..count {
        let form = ExprForm::Parenthesized {
            inner: made,
            place: HERE,
        };
        made = Expr::new(alloc, form)?;
    }
    made.copy(alloc)
}

/// `int`
fn specs(alloc: Global) -> Result<Specs, NoMemory> {
    let mut specs = Items::new(alloc);
    let int = Spec::Keyword {
        word: TypeWord::Int,
        place: HERE,
    };
    match specs.push(int) {
        Ok(()) => Specs::new(alloc, SpecsForm { specs })?.copy(alloc),
        Err(_) => Err(NoMemory),
    }
}

fn declarator(alloc: Global) -> Result<Declarator, NoMemory> {
    let form = DeclaratorForm::Unnamed {
        pointers: Items::new(alloc),
        suffixes: Items::new(alloc),
    };
    Declarator::new(alloc, form)?.copy(alloc)
}

/// `int`
fn type_name(alloc: Global) -> Result<TypeName, NoMemory> {
    let specs = specs(alloc)?;
    let declarator = declarator(alloc)?;
    TypeName::new(alloc, TypeNameForm { specs, declarator })?.copy(alloc)
}

/// `int;`
fn declaration(alloc: Global) -> Result<Declaration, NoMemory> {
    let form = DeclarationForm::Simple {
        specs: specs(alloc)?,
        declarators: Items::new(alloc),
    };
    Declaration::new(alloc, form)?.copy(alloc)
}

/// `nullptr;`
fn statement(alloc: Global) -> Result<Statement, NoMemory> {
    let form = StatementForm::Expression {
        value: Some(parenthesized(alloc, 0)?),
        span: SPAN,
    };
    Statement::new(alloc, form)?.copy(alloc)
}

/// `int;`
fn unit(alloc: Global) -> Result<Tree, NoMemory> {
    let mut externals = Items::new(alloc);
    match externals.push(External::Declaration(declaration(alloc)?)) {
        Ok(()) => Tree::new(alloc, TreeForm { externals })?.copy(alloc),
        Err(_) => Err(NoMemory),
    }
}

fn copied_depth(alloc: Global, node: Node) -> Result<u32, NoMemory> {
    match node {
        Node::Parenthesized(count) => Ok(parenthesized(alloc, count)?.depth()),
        Node::Specs => Ok(specs(alloc)?.depth()),
        Node::Declarator => Ok(declarator(alloc)?.depth()),
        Node::TypeName => Ok(type_name(alloc)?.depth()),
        Node::Initializer => {
            let value = parenthesized(alloc, 0)?;
            let made = Initializer::new(alloc, InitializerForm::Expr(value))?;
            Ok(made.copy(alloc)?.depth())
        }
        Node::Declaration => Ok(declaration(alloc)?.depth()),
        Node::Statement => Ok(statement(alloc)?.depth()),
        Node::Unit => Ok(unit(alloc)?.depth()),
    }
}

#[test]
fn nodes_are_made_and_copied(rt: HostRuntime) {
    for (node, depth) in &NODES {
        let copied = copied_depth(rt.alloc(), *node).expect(&rt, "memory");
        assert_eq!(rt; copied, *depth);
    }
}
