//! Tests of calls that no row of the real command reaches, a module a layer.
#![tactic(auto)]

#[cfg(test)]
mod drawn;
#[cfg(test)]
mod flow;
#[cfg(test)]
mod memory;
#[cfg(test)]
mod tokens;
