//! The tables of pairs, a crate and an account: who owns a crate, and who reads it. One statement
//! per function.

ghost use Rattle.std.specs.Prelude.{◌≡◌};
ghost use Rattle.sqlite.specs.Held.{state};
ghost use Rattle.reg_tables_schema.specs.Changes.{AddsColumns, Removes};
ghost use Rattle.reg_tables_schema.specs.States.{IsReady};
ghost use Rattle.reg_tables_schema.specs.Statements.{Writes};
ghost use Rattle.reg_tables_sql.specs.Answers.{Finds, Lists};
ghost use Rattle.reg_tables_sql.specs.Pairs.{AreAccountsOf, ArePairs, IsPaired, is_pair, pair_columns};
ghost use Rattle.reg_tables_sql.specs.Relations.{accounts_text, all_text, insert_text, pair_text, remove_text, rowids_text, tree_of};
ghost use Rattle.reg_tables_sql.specs.Rowids.{AreRowids};

use crate::accounts::Account;
use crate::statements::{Result, has_row, select_list, write};
use sqlite::{Alter, Connection, params};
use std::alloc::Global;

/// A crate and an account that owns or reads it.
#[derive(Clone, Copy, Debug, PartialEq, Eq)]
pub struct Pair {
    pub crate_id: u32,
    pub account: u32,
}

/// Which accounts of a crate are meant: each relation has its own table.
#[derive(Clone, Copy, Debug, PartialEq, Eq)]
pub enum Relation {
    Owners,
    Readers,
}

/// The SQL texts of a relation.
#[derive(Clone, Copy)]
struct PairTexts {
    insert: &'static str,
    remove: &'static str,
    pair: &'static str,
    accounts: &'static str,
    all: &'static str,
    rowids: &'static str,
}

const INSERT_OWNER_TEXT: &str = "INSERT INTO owners (crate, account) VALUES (?1, ?2)";

const REMOVE_OWNER_TEXT: &str = "DELETE FROM owners WHERE crate = ?1 AND account = ?2";

const OWNER_TEXT: &str = "SELECT crate, account FROM owners WHERE crate = ?1 AND account = ?2";

const OWNING_ACCOUNTS_TEXT: &str =
    "SELECT a.id, a.login, a.name, a.enabled FROM owners p JOIN accounts a ON a.id = p.account \
    WHERE p.crate = ?1 ORDER BY a.id";

const ALL_OWNERS_TEXT: &str = "SELECT crate, account FROM owners ORDER BY crate, account";

const OWNER_ROWIDS_TEXT: &str = "SELECT rowid FROM owners ORDER BY rowid";

const INSERT_READER_TEXT: &str = "INSERT INTO readers (crate, account) VALUES (?1, ?2)";

const REMOVE_READER_TEXT: &str = "DELETE FROM readers WHERE crate = ?1 AND account = ?2";

const READER_TEXT: &str = "SELECT crate, account FROM readers WHERE crate = ?1 AND account = ?2";

const READING_ACCOUNTS_TEXT: &str =
    "SELECT a.id, a.login, a.name, a.enabled FROM readers p JOIN accounts a ON a.id = p.account \
    WHERE p.crate = ?1 ORDER BY a.id";

const ALL_READERS_TEXT: &str = "SELECT crate, account FROM readers ORDER BY crate, account";

const READER_ROWIDS_TEXT: &str = "SELECT rowid FROM readers ORDER BY rowid";

const OWNERS: PairTexts = PairTexts {
    insert: INSERT_OWNER_TEXT,
    remove: REMOVE_OWNER_TEXT,
    pair: OWNER_TEXT,
    accounts: OWNING_ACCOUNTS_TEXT,
    all: ALL_OWNERS_TEXT,
    rowids: OWNER_ROWIDS_TEXT,
};

const READERS: PairTexts = PairTexts {
    insert: INSERT_READER_TEXT,
    remove: REMOVE_READER_TEXT,
    pair: READER_TEXT,
    accounts: READING_ACCOUNTS_TEXT,
    all: ALL_READERS_TEXT,
    rowids: READER_ROWIDS_TEXT,
};

fn texts(relation: Relation) -> PairTexts
    ensures insert { result.insert.now ≡ insert_text relation }
    ensures remove { result.remove.now ≡ remove_text relation }
    ensures pair { result.pair.now ≡ pair_text relation }
    ensures accounts { result.accounts.now ≡ accounts_text relation }
    ensures all { result.all.now ≡ all_text relation }
    ensures rowids { result.rowids.now ≡ rowids_text relation }
{
    match relation {
        Relation::Owners => OWNERS,
        Relation::Readers => READERS,
    }
}

/// Puts an account into the relation with a crate.
pub fn insert<S: Alter>(conn: &mut Connection<S>, relation: Relation, pair: Pair) -> Result<()>
    requires { IsReady (state S.Store conn.old) }
    ensures { Writes S.Store conn.old conn.new result
        (AddsColumns (tree_of relation) (pair_columns pair.crate_id pair.account)) }
{
    write(
        conn,
        texts(relation).insert,
        params![pair.crate_id, pair.account],
    )
}

/// Removes an account from the relation with a crate.
pub fn remove<S: Alter>(conn: &mut Connection<S>, relation: Relation, pair: Pair) -> Result<()>
    requires { IsReady (state S.Store conn.old) }
    ensures { Writes S.Store conn.old conn.new result
        (Removes (tree_of relation) (is_pair pair.crate_id pair.account)) }
{
    write(
        conn,
        texts(relation).remove,
        params![pair.crate_id, pair.account],
    )
}

/// Whether an account is in the relation with a crate.
pub fn is_there<S: Alter>(conn: &mut Connection<S>, relation: Relation, pair: Pair) -> Result<bool>
    requires { IsReady (state S.Store conn.old) }
    ensures { Finds S.Store conn.old conn.new result
        (IsPaired (tree_of relation) pair.crate_id pair.account) }
{
    has_row(
        conn,
        texts(relation).pair,
        params![pair.crate_id, pair.account],
    )
}

/// The accounts in the relation with a crate, by id.
pub fn of_crate<S: Alter>(
    alloc: Global,
    conn: &mut Connection<S>,
    relation: Relation,
    crate_id: u32,
) -> Result<Vec<Account>>
    requires { IsReady (state S.Store conn.old) }
    ensures { Lists S.Store conn.old conn.new result (AreAccountsOf (tree_of relation) crate_id) }
{
    select_list(alloc, conn, texts(relation).accounts, params![crate_id])
}

/// All pairs of a relation, by crate and account.
pub fn all<S: Alter>(
    alloc: Global,
    conn: &mut Connection<S>,
    relation: Relation,
) -> Result<Vec<Pair>>
    requires { IsReady (state S.Store conn.old) }
    ensures { Lists S.Store conn.old conn.new result (ArePairs (tree_of relation)) }
{
    select_list(alloc, conn, texts(relation).all, &[])
}

/// The rowids of all pairs of a relation, in order.
pub fn rowids<S: Alter>(
    alloc: Global,
    conn: &mut Connection<S>,
    relation: Relation,
) -> Result<Vec<i64>>
    requires { IsReady (state S.Store conn.old) }
    ensures { Lists S.Store conn.old conn.new result (AreRowids (tree_of relation)) }
{
    select_list(alloc, conn, texts(relation).rowids, &[])
}
