//! Laws of what initializers place where: each function does nothing, and its contract is the law.
ghost use Rattle.initializer_laws.specs.BraceElision.{MayBeLeftOut};

/// Full braces inside a list may be left out.
pub fn full_braces_may_be_left_out()
    ensures { MayBeLeftOut }
{}
