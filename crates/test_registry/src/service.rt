//! Tests of the service over a store in memory, by scripts in the words of `test_scripts`.
//!
//! The plain registry is asked the same, and has to answer alike.

mod agreeing;
mod changed_owners;
mod commands;
mod greatest;
mod judging;
mod names;
mod opening;
mod owners;
mod plain_memory;
mod publishing;
mod readers;
mod reading;
mod refusals;
mod releases;
mod repeated;
mod reports;
mod restricted;
mod rules;
mod rules_of_new_crates;
mod rules_of_new_versions;
mod rules_of_owners;
mod rules_of_reading;
mod rules_of_yanking;
mod script;
mod searching;
mod stage;
mod tokens;
