//! Tests of `rt_geo` through its public calls: what no clause says, as that the definitions give the answers that were
//! worked out by hand, and that each type can be used through its bound.
#![tactic(auto)]

#[cfg(test)]
mod checks;
#[cfg(test)]
mod expect;
#[cfg(test)]
mod geometries;
#[cfg(test)]
mod layers;
#[cfg(test)]
mod polygons;
#[cfg(test)]
mod surface;
#[cfg(test)]
mod watched;
