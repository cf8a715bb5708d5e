//! Tests of the pure layers: what needs no registry.
#![tactic(auto)]

#[cfg(test)]
mod layers;
