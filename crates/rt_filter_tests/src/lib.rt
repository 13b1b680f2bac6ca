//! Tests of `rt_filter` through its public calls.
#![tactic(auto)]

#[cfg(test)]
mod batches;
#[cfg(test)]
mod expect;
#[cfg(test)]
mod failures;
#[cfg(test)]
mod given;
#[cfg(test)]
mod pulls;
#[cfg(test)]
mod replies;
#[cfg(test)]
mod runs;
#[cfg(test)]
mod surface;
#[cfg(test)]
mod turns;
