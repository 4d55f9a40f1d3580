//! Tests of scopes and types: calls that no row of the real command reaches, a module a layer.
#![tactic(auto)]

#[cfg(test)]
mod declaring;
#[cfg(test)]
mod scopes;
#[cfg(test)]
mod script;
#[cfg(test)]
mod sizes;
#[cfg(test)]
mod typed;
#[cfg(test)]
mod wide;
