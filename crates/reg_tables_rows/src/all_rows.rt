//! All rows of the tables, as the opening checks read them.

ghost use Rattle.std.specs.Prelude.{ℕ, Some, string_bytes};
ghost use Rattle.sqlite.specs.Held.{state};
ghost use Rattle.sqlite.specs.Tree.{Trees};
ghost use Rattle.sqlite_schema.specs.Rules.{Obeys};
ghost use Rattle.reg_tables_schema.specs.Places.{archives_tree, readers_tree};
ghost use Rattle.reg_tables_schema.specs.Schema.{ours};
ghost use Rattle.reg_tables_schema.specs.States.{IsReady};
ghost use Rattle.reg_tables_schema.specs.Statements.{rows_in};
ghost use Rattle.reg_tables_schema.specs.Steps.{Done, KeepsAll, Told};
ghost use Rattle.reg_tables_sql.specs.Abouts.{IsBaseOf};
ghost use Rattle.reg_tables_sql.specs.Accounts.{AreAccounts};
ghost use Rattle.reg_tables_sql.specs.Counts.{IsFirstId};
ghost use Rattle.reg_tables_sql.specs.Crates.{AreCratesById};
ghost use Rattle.reg_tables_sql.specs.Owners.{AreOwnerships};
ghost use Rattle.reg_tables_sql.specs.Pairs.{ArePairs};
ghost use Rattle.reg_tables_sql.specs.Reserved.{AreReserved};
ghost use Rattle.reg_tables_sql.specs.Restricted.{AreRestricted};
ghost use Rattle.reg_tables_sql.specs.Scopes.{AreScopes};
ghost use Rattle.reg_tables_sql.specs.Summaries.{AreSummaries};
ghost use Rattle.reg_tables_sql.specs.Tokens.{AreTokens};
ghost use Rattle.reg_tables_sql.specs.Versions.{AreVersions};
ghost use Rattle.reg_tables_rows.specs.WholeRows.{AreAllRows, AreApart, HaveIds};

use crate::apart::{check_crates, check_rowids, check_versions};
use reg_tables_sql::accounts::Account;
use reg_tables_sql::crates::Crate;
use reg_tables_sql::pairs::{Pair, Relation};
use reg_tables_sql::scopes::Scope;
use reg_tables_sql::statements::Result;
use reg_tables_sql::summaries::Summary;
use reg_tables_sql::tokens::Token;
use reg_tables_sql::versions::Version;
use reg_tables_sql::{
    about, accounts, archives, crates, pairs, reserved, restricted, scopes, summaries, tokens,
    versions,
};
use sqlite::{Alter, Connection, Error};
use std::alloc::Global;

/// The rows of all tables but archives, each table ordered by its key.
#[derive(Drop)]
pub struct AllRows {
    pub base: String,
    pub accounts: Vec<Account>,
    pub tokens: Vec<Token>,
    pub scopes: Vec<Scope>,
    pub crates: Vec<Crate>,
    pub owners: Vec<Pair>,
    pub versions: Vec<Version>,
    pub reserved: Vec<String>,
    pub summaries: Vec<Summary>,
    pub restricted: Vec<u32>,
    pub readers: Vec<Pair>,
}

/// The rows that make up tokens.
#[derive(Drop)]
struct TokenTables {
    accounts: Vec<Account>,
    tokens: Vec<Token>,
    scopes: Vec<Scope>,
}

/// The rows that make up crates.
#[derive(Drop)]
struct CrateTables {
    crates: Vec<Crate>,
    owners: Vec<Pair>,
    versions: Vec<Version>,
}

/// What is kept about crates besides their versions.
#[derive(Drop)]
struct KeptTables {
    summaries: Vec<Summary>,
    restricted: Vec<u32>,
    readers: Vec<Pair>,
}

/// All other rows.
#[derive(Drop)]
struct OtherTables {
    base: String,
    reserved: Vec<String>,
}

fn token_tables<S: Alter>(alloc: Global, conn: &mut Connection<S>) -> Result<TokenTables>
    requires { IsReady (state S.Store conn.old) }
    ensures accounts { Told S.Store conn.new result
        (λ it. AreAccounts (rows_in S.Store conn.old) it.accounts.items) }
    ensures tokens { Told S.Store conn.new result
        (λ it. AreTokens (rows_in S.Store conn.old) it.tokens.items) }
    ensures scopes { Told S.Store conn.new result
        (λ it. AreScopes (rows_in S.Store conn.old) it.scopes.items) }
    ensures same { KeepsAll S.Store conn.old conn.new result }
{
    Ok(TokenTables {
        accounts: accounts::all(alloc, conn)?,
        tokens: tokens::all(alloc, conn)?,
        scopes: scopes::all(alloc, conn)?,
    })
}

// Rows that a connection shows keep the rules of its schema: the body is there for the prover,
// which knows it once the schema is read.
fn see_rules<S: Alter>(conn: &mut Connection<S>) -> Result<()>
    requires { IsReady (state S.Store conn.old) }
    ensures obeys { Done S.Store conn.new result (Obeys ours (rows_in S.Store conn.old)) }
    ensures same { KeepsAll S.Store conn.old conn.new result }
{
    let _schema = conn.schema();
    Ok(())
}

fn crate_tables<S: Alter>(alloc: Global, conn: &mut Connection<S>) -> Result<CrateTables>
    requires { IsReady (state S.Store conn.old) }
    ensures crates { Told S.Store conn.new result
        (λ it. AreCratesById (rows_in S.Store conn.old) it.crates.items) }
    ensures owners { Told S.Store conn.new result
        (λ it. AreOwnerships (rows_in S.Store conn.old) it.owners.items) }
    ensures versions { Told S.Store conn.new result
        (λ it. AreVersions (rows_in S.Store conn.old) it.versions.items) }
    ensures apart { Done S.Store conn.new result (AreApart (rows_in S.Store conn.old)) }
    ensures obeys { Done S.Store conn.new result (Obeys ours (rows_in S.Store conn.old)) }
    ensures same { KeepsAll S.Store conn.old conn.new result }
{
    see_rules(conn)?;
    check_rowids(alloc, conn)?;
    let crates = crates::all_by_id(alloc, conn)?;
    check_crates(&crates)?;
    let owners = pairs::all(alloc, conn, Relation::Owners)?;
    let versions = versions::all(alloc, conn)?;
    check_versions(&versions)?;
    Ok(CrateTables {
        crates,
        owners,
        versions,
    })
}

fn kept_tables<S: Alter>(alloc: Global, conn: &mut Connection<S>) -> Result<KeptTables>
    requires { IsReady (state S.Store conn.old) }
    ensures summaries { Told S.Store conn.new result
        (λ it. AreSummaries (rows_in S.Store conn.old) it.summaries.items) }
    ensures restricted { Told S.Store conn.new result
        (λ it. AreRestricted (rows_in S.Store conn.old) it.restricted.items) }
    ensures readers { Told S.Store conn.new result
        (λ it. ArePairs readers_tree (rows_in S.Store conn.old) it.readers.items) }
    ensures same { KeepsAll S.Store conn.old conn.new result }
{
    Ok(KeptTables {
        summaries: summaries::all(alloc, conn)?,
        restricted: restricted::all(alloc, conn)?,
        readers: pairs::all(alloc, conn, Relation::Readers)?,
    })
}

fn the_base<S: Alter>(conn: &mut Connection<S>) -> Result<String>
    requires { IsReady (state S.Store conn.old) }
    ensures base { Told S.Store conn.new result
        (λ base. IsBaseOf (rows_in S.Store conn.old) (Some (string_bytes base))) }
    ensures same { KeepsAll S.Store conn.old conn.new result }
{
    match about::base(conn)? {
        Some(base) => Ok(base),
        None => Err(Error::InvalidQuery),
    }
}

// Where the first id is a number, none is NULL, which would come before it.
fn see_ids(first: Option<u64>)
    ensures { (tree : ℕ) (db : Trees) → IsFirstId tree db first → HaveIds (db tree) }
{}

// That archives have ids is seen from the first alone: each row that is read is read whole.
fn see_archives<S: Alter>(conn: &mut Connection<S>) -> Result<()>
    requires { IsReady (state S.Store conn.old) }
    ensures ids { Done S.Store conn.new result (HaveIds (rows_in S.Store conn.old archives_tree)) }
    ensures same { KeepsAll S.Store conn.old conn.new result }
{
    let first = archives::first_id(conn)?;
    see_ids(first);
    Ok(())
}

fn other_tables<S: Alter>(alloc: Global, conn: &mut Connection<S>) -> Result<OtherTables>
    requires { IsReady (state S.Store conn.old) }
    ensures base { Told S.Store conn.new result
        (λ it. IsBaseOf (rows_in S.Store conn.old) (Some (string_bytes it.base))) }
    ensures archives { Done S.Store conn.new result
        (HaveIds (rows_in S.Store conn.old archives_tree)) }
    ensures reserved { Told S.Store conn.new result
        (λ it. AreReserved (rows_in S.Store conn.old) it.reserved.items) }
    ensures same { KeepsAll S.Store conn.old conn.new result }
{
    let base = the_base(conn)?;
    see_archives(conn)?;
    let reserved = reserved::all(alloc, conn)?;
    Ok(OtherTables { base, reserved })
}

/// The rows of all tables. For crates, versions, owners, readers and reserved names, two rows
/// sharing a rowid are a fault.
pub fn read<S: Alter>(alloc: Global, conn: &mut Connection<S>) -> Result<AllRows>
    requires { IsReady (state S.Store conn.old) }
    ensures read { Told S.Store conn.new result (λ it. AreAllRows it (rows_in S.Store conn.old)) }
    ensures same { KeepsAll S.Store conn.old conn.new result }
{
    let TokenTables {
        accounts,
        tokens,
        scopes,
    } = token_tables(alloc, conn)?;
    let CrateTables {
        crates,
        owners,
        versions,
    } = crate_tables(alloc, conn)?;
    let OtherTables { base, reserved } = other_tables(alloc, conn)?;
    let KeptTables {
        summaries,
        restricted,
        readers,
    } = kept_tables(alloc, conn)?;
    Ok(AllRows {
        base,
        accounts,
        tokens,
        scopes,
        crates,
        owners,
        versions,
        reserved,
        summaries,
        restricted,
        readers,
    })
}
