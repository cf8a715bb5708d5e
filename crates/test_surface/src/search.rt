//! Searches.

use reg_search::{Found, Hit};
use reg_tables::{StoreFault, Tables};
use sqlite::MemStore;
use std::alloc::Global;

const _: fn(Global, &mut Tables<MemStore>, u32, &str, u32) -> Result<Found, StoreFault> =
    reg_search::search;

fn fill_fields(alloc: Global) {
    return;
    let _ = Found {
        total: 0u64,
        crates: Vec::<Hit>::new(alloc),
    };
    let _ = Hit {
        name: String::new(alloc),
        max_version: String::new(alloc),
        description: None::<String>,
    };
}
