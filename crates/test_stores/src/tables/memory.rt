//! Making the tables with each amount of memory: they are made and known again, or nothing is made.

use reg_tables_schema::{MakeFault, SchemaVersion, edition_of, make_tables};
use sqlite::Connection;
use std::alloc::{AllocError, Global};
use std::test::Fail;
use test_support::scarce_memory::Amounts;

const COUNT: u32 = 400;

const STEP: u32 = 1000;

/// How a making ended.
#[derive(Clone, Copy, Debug, PartialEq, Eq)]
enum Outcome {
    Made,
    Want,
    Other,
}

fn make(alloc: Global) -> Result<Outcome, AllocError> {
    let mut conn = Connection::open_in_memory(alloc)?;
    Ok(match make_tables(&mut conn, "https://index.example/") {
        Ok(()) if edition_of(alloc, conn.schema())? == Some(SchemaVersion::Second) => Outcome::Made,
        Err(MakeFault::Storage) if conn.schema().tables.is_empty() => Outcome::Want,
        _ => Outcome::Other,
    })
}

#[test]
fn with_each_amount(rt: HostRuntime) -> Result<(), Fail> {
    let alloc = rt.alloc();
    let mut amounts = Amounts::new(alloc, COUNT, STEP)?;
    let mut made = 0_u32;
    let mut wants = 0_u32;
    let mut others = 0_u32;
    for _ in 0..COUNT {
        if !amounts.advance(alloc) {
            break;
        }
        match make(alloc) {
            Ok(Outcome::Made) => made = made.saturating_add(1),
            Ok(Outcome::Want) | Err(AllocError) => wants = wants.saturating_add(1),
            Ok(Outcome::Other) => others = others.saturating_add(1),
        }
    }
    drop(amounts);
    assert!(rt;
        made > 5 && wants > 5 && others == 0,
        "{made} {wants} {others}"
    );
    Ok(())
}
