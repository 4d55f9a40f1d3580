//! Tests of the nodes of cores and of C89 programs: calls that no row of the real command reaches, a module a layer.
#![tactic(auto)]

#[cfg(test)]
mod core_statements;
#[cfg(test)]
mod cores;
#[cfg(test)]
mod programs;
