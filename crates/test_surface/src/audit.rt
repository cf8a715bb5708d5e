//! The checks on opening.

use reg_audit::Check;
use reg_tables::{StoreFault, Tables};
use sqlite::MemStore;
use std::alloc::Global;

const _: fn(Global, &mut Tables<MemStore>) -> Result<Option<Check>, StoreFault> = reg_audit::audit;

const _: [Check; 8] = [
    Check::C1,
    Check::C2,
    Check::C3,
    Check::C4,
    Check::C5,
    Check::C6,
    Check::C7,
    Check::C8,
];
