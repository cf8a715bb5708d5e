//! The texts that make the tables, in the order in which they are made, and one function for each.
//!
//! Ids of accounts, tokens and crates are u32 and count from 1, marks are 0 or 1, and no foreign
//! key acts: what a row refers to is never taken away under it.

ghost use Rattle.sqlite.specs.State.{HasCleanDisk};
ghost use Rattle.sqlite.specs.Held.{state};
ghost use Rattle.reg_tables_schema.specs.Schema.{ours, old_schema, blank, first_of_ours};
ghost use Rattle.reg_tables_schema.specs.States.{Grows, HasMade, IsInsideWith, Makes};
ghost use Rattle.reg_tables_schema.specs.Statements.{Writes};

use sqlite::{Alter, Connection, Error};

/// One row: which schema it is, and the base of the registry.
pub(crate) const ABOUT: &str =
    "CREATE TABLE about (schema INTEGER NOT NULL, base TEXT NOT NULL) STRICT";

pub(crate) const ACCOUNTS: &str =
    "CREATE TABLE accounts (id INTEGER PRIMARY KEY CHECK (id BETWEEN 1 AND 4294967295), login \
    TEXT NOT NULL UNIQUE, name TEXT, enabled INTEGER NOT NULL CHECK (enabled IN (0, 1))) STRICT";

/// The digest of a token's text, whose account it is, and what it may do.
pub(crate) const TOKENS: &str =
    "CREATE TABLE tokens (id INTEGER PRIMARY KEY CHECK (id BETWEEN 1 AND 4294967295), digest \
    BLOB NOT NULL UNIQUE CHECK (length(digest) = 32), account INTEGER NOT NULL REFERENCES \
    accounts (id), live INTEGER NOT NULL CHECK (live IN (0, 1)), publish_new INTEGER NOT NULL \
    CHECK (publish_new IN (0, 1)), publish_update INTEGER NOT NULL CHECK (publish_update IN (0, \
    1)), yank INTEGER NOT NULL CHECK (yank IN (0, 1)), change_owners INTEGER NOT NULL CHECK \
    (change_owners IN (0, 1))) STRICT";

/// The patterns of a token at places 0, 1, .., each with the range of canonical names that it
/// covers.
pub(crate) const SCOPES: &str =
    "CREATE TABLE scopes (token INTEGER NOT NULL REFERENCES tokens (id), place INTEGER NOT NULL \
    CHECK (place >= 0), pattern TEXT NOT NULL, low TEXT NOT NULL, high TEXT NOT NULL, PRIMARY \
    KEY (token, place)) STRICT";

pub(crate) const CRATES: &str =
    "CREATE TABLE crates (id INTEGER PRIMARY KEY CHECK (id BETWEEN 1 AND 4294967295), canon TEXT \
    NOT NULL UNIQUE, name TEXT NOT NULL) STRICT";

pub(crate) const OWNERS: &str =
    "CREATE TABLE owners (crate INTEGER NOT NULL REFERENCES crates (id), account INTEGER NOT \
    NULL REFERENCES accounts (id), PRIMARY KEY (crate, account)) STRICT";

/// In the order of publication; a release is the version without build metadata.
pub(crate) const VERSIONS: &str =
    "CREATE TABLE versions (id INTEGER PRIMARY KEY CHECK (id >= 1), crate INTEGER NOT NULL \
    REFERENCES crates (id), vers TEXT NOT NULL, release TEXT NOT NULL, digest BLOB NOT NULL, \
    stem BLOB NOT NULL, description TEXT, yanked INTEGER NOT NULL CHECK (yanked IN (0, 1)), \
    UNIQUE (crate, release)) STRICT";

pub(crate) const ARCHIVES: &str =
    "CREATE TABLE archives (version INTEGER PRIMARY KEY REFERENCES versions (id), bytes BLOB NOT \
    NULL) STRICT";

/// The names that an administrator keeps back, beside those that are always reserved.
pub(crate) const RESERVED: &str = "CREATE TABLE reserved (canon TEXT NOT NULL PRIMARY KEY) STRICT";

/// Of each crate the greatest version that is not yanked, and the length of its index file.
pub(crate) const SUMMARIES: &str =
    "CREATE TABLE summaries (crate INTEGER PRIMARY KEY REFERENCES crates (id), highest INTEGER \
    NOT NULL REFERENCES versions (id), index_length INTEGER NOT NULL CHECK (index_length >= 0)) \
    STRICT";

/// The crates that are not for everyone.
pub(crate) const RESTRICTED: &str =
    "CREATE TABLE restricted (crate INTEGER PRIMARY KEY REFERENCES crates (id)) STRICT";

/// Who may read a restricted crate.
pub(crate) const READERS: &str =
    "CREATE TABLE readers (crate INTEGER NOT NULL REFERENCES crates (id), account INTEGER NOT \
    NULL REFERENCES accounts (id), PRIMARY KEY (crate, account)) STRICT";

pub fn create_about<S: Alter>(conn: &mut Connection<S>) -> Result<usize, Error>
    requires { HasCleanDisk (state S.Store conn.old) → HasMade blank (state S.Store conn.old) }
    ensures { Writes S.Store conn.old conn.new result (Makes (first_of_ours 1 0)) }
{
    conn.execute(ABOUT, &[])
}

pub fn create_accounts<S: Alter>(conn: &mut Connection<S>) -> Result<usize, Error>
    requires { HasCleanDisk (state S.Store conn.old) → HasMade (first_of_ours 1 0)
        (state S.Store conn.old) }
    ensures { Writes S.Store conn.old conn.new result (Makes (first_of_ours 2 1)) }
{
    conn.execute(ACCOUNTS, &[])
}

pub fn create_tokens<S: Alter>(conn: &mut Connection<S>) -> Result<usize, Error>
    requires { HasCleanDisk (state S.Store conn.old) → HasMade (first_of_ours 2 1)
        (state S.Store conn.old) }
    ensures { Writes S.Store conn.old conn.new result (Makes (first_of_ours 3 2)) }
{
    conn.execute(TOKENS, &[])
}

pub fn create_scopes<S: Alter>(conn: &mut Connection<S>) -> Result<usize, Error>
    requires { HasCleanDisk (state S.Store conn.old) → HasMade (first_of_ours 3 2)
        (state S.Store conn.old) }
    ensures { Writes S.Store conn.old conn.new result (Makes (first_of_ours 4 3)) }
{
    conn.execute(SCOPES, &[])
}

pub fn create_crates<S: Alter>(conn: &mut Connection<S>) -> Result<usize, Error>
    requires { HasCleanDisk (state S.Store conn.old) → HasMade (first_of_ours 4 3)
        (state S.Store conn.old) }
    ensures { Writes S.Store conn.old conn.new result (Makes (first_of_ours 5 4)) }
{
    conn.execute(CRATES, &[])
}

pub fn create_owners<S: Alter>(conn: &mut Connection<S>) -> Result<usize, Error>
    requires { HasCleanDisk (state S.Store conn.old) → HasMade (first_of_ours 5 4)
        (state S.Store conn.old) }
    ensures { Writes S.Store conn.old conn.new result (Makes (first_of_ours 6 5)) }
{
    conn.execute(OWNERS, &[])
}

pub fn create_versions<S: Alter>(conn: &mut Connection<S>) -> Result<usize, Error>
    requires { HasCleanDisk (state S.Store conn.old) → HasMade (first_of_ours 6 5)
        (state S.Store conn.old) }
    ensures { Writes S.Store conn.old conn.new result (Makes (first_of_ours 7 6)) }
{
    conn.execute(VERSIONS, &[])
}

pub fn create_archives<S: Alter>(conn: &mut Connection<S>) -> Result<usize, Error>
    requires { HasCleanDisk (state S.Store conn.old) → HasMade (first_of_ours 7 6)
        (state S.Store conn.old) }
    ensures { Writes S.Store conn.old conn.new result (Makes (first_of_ours 8 6)) }
{
    conn.execute(ARCHIVES, &[])
}

pub fn create_reserved<S: Alter>(conn: &mut Connection<S>) -> Result<usize, Error>
    requires { HasCleanDisk (state S.Store conn.old) → HasMade (first_of_ours 8 6)
        (state S.Store conn.old) }
    ensures { Writes S.Store conn.old conn.new result (Makes (first_of_ours 9 7)) }
{
    conn.execute(RESERVED, &[])
}

pub fn create_summaries<S: Alter>(conn: &mut Connection<S>) -> Result<usize, Error>
    requires { HasCleanDisk (state S.Store conn.old) → HasMade (first_of_ours 9 7)
        (state S.Store conn.old) }
    ensures { Writes S.Store conn.old conn.new result (Makes old_schema) }
{
    conn.execute(SUMMARIES, &[])
}

pub fn create_restricted<S: Alter>(conn: &mut Connection<S>) -> Result<usize, Error>
    requires { HasCleanDisk (state S.Store conn.old) → IsInsideWith old_schema
        (state S.Store conn.old) }
    ensures { Writes S.Store conn.old conn.new result (Grows old_schema (first_of_ours 11 7) 17) }
{
    conn.execute(RESTRICTED, &[])
}

pub fn create_readers<S: Alter>(conn: &mut Connection<S>) -> Result<usize, Error>
    requires { HasCleanDisk (state S.Store conn.old) → IsInsideWith (first_of_ours 11 7)
        (state S.Store conn.old) }
    ensures { Writes S.Store conn.old conn.new result (Grows (first_of_ours 11 7) ours 18) }
{
    conn.execute(READERS, &[])
}
