//! Tests of `rt_device` through its public calls.
#![tactic(auto)]

#[cfg(test)]
mod devices;
#[cfg(test)]
mod expect;
#[cfg(test)]
mod surface;
