//! Tests of `rt_embed` through its public calls.
#![tactic(auto)]

#[cfg(test)]
mod columns;
#[cfg(test)]
mod expect;
#[cfg(test)]
mod given;
#[cfg(test)]
mod numbers;
#[cfg(test)]
mod plain;
#[cfg(test)]
mod scans;
#[cfg(test)]
mod texts;
