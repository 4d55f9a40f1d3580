//! The notation for the right sides of the grammar's productions.

/// A token of one of the kinds, with what the scopes do at it where they do more than pass on.
macro_rules! token {
    ($($kind:ident)|+) => {
        token![$($kind)|+ => Pass]
    };
    ($($kind:ident)|+ => $act:ident) => {
        token![in &[$(syntax_meanings::kinds::$kind),+] => $act]
    };
    (in $kinds:expr => $act:ident) => {
        &$crate::forms::Form::Word($kinds, model_grammar::grammar::Act::$act)
    };
}

/// What the nonterminal derives.
macro_rules! rule {
    ($rule:ident) => {
        &$crate::forms::Form::Rule(model_grammar::grammar::Rule::$rule)
    };
}

/// No token.
macro_rules! nothing {
    () => {
        &$crate::forms::Form::Empty
    };
}

/// The forms one behind the other.
macro_rules! sequence {
    ($form:expr $(,)?) => {
        $form
    };
    ($form:expr, $($rest:expr),+ $(,)?) => {
        &$crate::forms::Form::Then($form, sequence![$($rest),+])
    };
}

/// One of the forms, the first that may begin with the next token.
macro_rules! choice {
    ($form:expr $(,)?) => {
        $form
    };
    ($form:expr, $($rest:expr),+ $(,)?) => {
        &$crate::forms::Form::Or($form, choice![$($rest),+])
    };
}

/// The forms one behind the other, or nothing.
macro_rules! maybe {
    ($($form:expr),+ $(,)?) => {
        &$crate::forms::Form::Maybe(sequence![$($form),+])
    };
}

/// The forms one behind the other, any number of times.
macro_rules! many {
    ($($form:expr),+ $(,)?) => {
        &$crate::forms::Form::Many(sequence![$($form),+])
    };
}

/// The forms one behind the other, as often as the test holds.
macro_rules! many_while {
    ($test:ident, $($form:expr),+ $(,)?) => {
        &$crate::forms::Form::Loop(model_grammar::grammar::Test::$test, sequence![$($form),+])
    };
}

/// The first form where the test holds, the second elsewhere.
macro_rules! when {
    ($test:ident, $form:expr, $other:expr $(,)?) => {
        &$crate::forms::Form::When(model_grammar::grammar::Test::$test, $form, $other)
    };
}

pub(crate) use choice;
pub(crate) use many;
pub(crate) use many_while;
pub(crate) use maybe;
pub(crate) use nothing;
pub(crate) use rule;
pub(crate) use sequence;
pub(crate) use token;
pub(crate) use when;
