//! Tests of `rt_search` through its public calls, and of a shape, a geometry and a search of one's own:
//! `docs/internals/own-geometry.md` shows their code.
#![tactic(auto)]

#[cfg(test)]
mod checks;
#[cfg(test)]
mod expect;
#[cfg(test)]
mod left_of;
#[cfg(test)]
mod opening;
#[cfg(test)]
mod own_geometries;
#[cfg(test)]
mod random;
#[cfg(test)]
mod searches;
#[cfg(test)]
mod searching;
#[cfg(test)]
mod surface;
#[cfg(test)]
mod tables;
#[cfg(test)]
mod uneven;
#[cfg(test)]
mod watched;
