//! Making the tables, and knowing them again.

use crate::tables::scripts::connects;
use std::test::Fail;

const AN_EMPTY_STORE: &str = "ours -> no
make https://index.example/ -> done
ours -> yes";

#[test]
fn an_empty_store(rt: HostRuntime) -> Result<(), Fail> {
    connects(&rt, rt.alloc(), AN_EMPTY_STORE)
}

const THE_ROW_OF_ABOUT: &str = "make https://index.example/ -> done
rows SELECT schema, base FROM about -> 2:https://index.example/;";

#[test]
fn the_row_of_about(rt: HostRuntime) -> Result<(), Fail> {
    connects(&rt, rt.alloc(), THE_ROW_OF_ABOUT)
}

const A_STORE_WITH_ANOTHER_TABLE: &str = "CREATE TABLE accounts (id INTEGER PRIMARY KEY) -> done
ours -> no
make https://index.example/ -> unknown";

#[test]
fn a_store_with_another_table(rt: HostRuntime) -> Result<(), Fail> {
    connects(&rt, rt.alloc(), A_STORE_WITH_ANOTHER_TABLE)
}

const TABLES_MADE_TWICE: &str = "make https://index.example/ -> done
make https://index.example/ -> unknown
ours -> yes";

#[test]
fn tables_made_twice(rt: HostRuntime) -> Result<(), Fail> {
    connects(&rt, rt.alloc(), TABLES_MADE_TWICE)
}

const ONE_TABLE_MORE: &str = "make https://index.example/ -> done
CREATE TABLE other (a INTEGER) -> done
ours -> no";

#[test]
fn one_table_more(rt: HostRuntime) -> Result<(), Fail> {
    connects(&rt, rt.alloc(), ONE_TABLE_MORE)
}

const ONE_UNDONE_AND_ONE_FINISHED: &str = "make https://index.example/ -> done
begin -> done
INSERT INTO reserved (canon) VALUES ('undone') -> done
undo -> done
begin -> done
INSERT INTO reserved (canon) VALUES ('kept') -> done
resting -> no
finish -> done
resting -> yes
rows SELECT canon FROM reserved -> kept;";

#[test]
fn one_transaction_undone_and_one_finished(rt: HostRuntime) -> Result<(), Fail> {
    connects(&rt, rt.alloc(), ONE_UNDONE_AND_ONE_FINISHED)
}

const TABLES_TAKEN_OVER: &str = "make https://index.example/ -> done
resting -> yes
adopt -> done";

#[test]
fn tables_taken_over(rt: HostRuntime) -> Result<(), Fail> {
    connects(&rt, rt.alloc(), TABLES_TAKEN_OVER)
}

const AN_EMPTY_STORE_NOT_TAKEN_OVER: &str = "resting -> yes
adopt -> unknown";

#[test]
fn an_empty_store_not_taken_over(rt: HostRuntime) -> Result<(), Fail> {
    connects(&rt, rt.alloc(), AN_EMPTY_STORE_NOT_TAKEN_OVER)
}

const TABLES_NOT_MADE_OVER_TABLES: &str = "make https://index.example/ -> done
make-tables https://other.example -> unknown
ours -> yes
rows SELECT base FROM about -> https://index.example/;";

#[test]
fn tables_not_made_over_tables(rt: HostRuntime) -> Result<(), Fail> {
    connects(&rt, rt.alloc(), TABLES_NOT_MADE_OVER_TABLES)
}
