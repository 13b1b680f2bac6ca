//! Tests of `rt_tree` through its public calls.
#![tactic(auto)]

#[cfg(test)]
mod expect;
#[cfg(test)]
mod layered;
#[cfg(test)]
mod surface;
#[cfg(test)]
mod table;
#[cfg(test)]
mod tree;
#[cfg(test)]
mod trees;
