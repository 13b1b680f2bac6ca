//! Tests of `rt_text` through its public calls.
#![tactic(auto)]

#[cfg(test)]
mod expect;
#[cfg(test)]
mod grammar;
#[cfg(test)]
mod numbers;
#[cfg(test)]
mod reply_lines;
#[cfg(test)]
mod run_faults;
#[cfg(test)]
mod surface;
#[cfg(test)]
mod tables;
