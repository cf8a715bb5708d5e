//! Decisions on access, who may act on a crate, and who reads it.

use reg_access::Grant;
use reg_line::Digest;
use reg_names::{CrateName, Login};
use reg_policy::{Action, Decision, Endpoint};
use reg_tables::{StoreFault, Work};
use sqlite::MemStore;
use std::alloc::Global;

const _: fn(&mut Work<'_, MemStore>, &Digest, &Action) -> Result<Decision, StoreFault> =
    reg_access::authorize;

const _: fn(Global, &mut Work<'_, MemStore>, &CrateName) -> Result<Vec<Grant>, StoreFault> =
    reg_access::who_may;

const _: fn(Global, &mut Work<'_, MemStore>, &CrateName) -> Result<Vec<(u32, Login)>, StoreFault> =
    reg_access::who_reads;

const _: fn() = reg_access::laws::token_law;

const _: fn() = reg_access::laws::scope_law;

const _: fn() = reg_access::laws::crate_law;

const _: fn() = reg_access::laws::version_law;

const _: fn() = reg_access::laws::join_law;

fn fill_fields(login: Login) {
    return;
    let _ = Grant {
        token: 1u32,
        endpoint: Endpoint::Yank,
        login,
    };
}
