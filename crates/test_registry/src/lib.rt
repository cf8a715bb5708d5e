//! Tests of a registry at work, as scripts: the service over memory, beside the plain registry.
#![tactic(auto)]

#[cfg(test)]
mod service;
