//! Tests of `rt_command` through its public calls.
#![tactic(auto)]

#[cfg(test)]
mod expect;
#[cfg(test)]
mod invocation;
#[cfg(test)]
mod memory;
#[cfg(test)]
mod settings;
#[cfg(test)]
mod surface;
