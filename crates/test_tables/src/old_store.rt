//! A store of schema 1, as its statements make it.

use sqlite::{Alter, Connection, Error, params};

/// The tables of schema 1, with the registry of [`FILLED`](crate::FILLED) in them.
const STATEMENTS: &str = "CREATE TABLE about (schema INTEGER NOT NULL, base TEXT NOT NULL) STRICT
CREATE TABLE accounts (id INTEGER PRIMARY KEY CHECK (id BETWEEN 1 AND 4294967295), login \
TEXT NOT NULL UNIQUE, name TEXT, enabled INTEGER NOT NULL CHECK (enabled IN (0, 1))) STRICT
CREATE TABLE tokens (id INTEGER PRIMARY KEY CHECK (id BETWEEN 1 AND 4294967295), digest \
BLOB NOT NULL UNIQUE CHECK (length(digest) = 32), account INTEGER NOT NULL REFERENCES \
accounts (id), live INTEGER NOT NULL CHECK (live IN (0, 1)), publish_new INTEGER NOT \
NULL CHECK (publish_new IN (0, 1)), publish_update INTEGER NOT NULL CHECK \
(publish_update IN (0, 1)), yank INTEGER NOT NULL CHECK (yank IN (0, 1)), change_owners \
INTEGER NOT NULL CHECK (change_owners IN (0, 1))) STRICT
CREATE TABLE scopes (token INTEGER NOT NULL REFERENCES tokens (id), place INTEGER NOT \
NULL CHECK (place >= 0), pattern TEXT NOT NULL, low TEXT NOT NULL, high TEXT NOT NULL, \
PRIMARY KEY (token, place)) STRICT
CREATE TABLE crates (id INTEGER PRIMARY KEY CHECK (id BETWEEN 1 AND 4294967295), canon \
TEXT NOT NULL UNIQUE, name TEXT NOT NULL) STRICT
CREATE TABLE owners (crate INTEGER NOT NULL REFERENCES crates (id), account INTEGER NOT \
NULL REFERENCES accounts (id), PRIMARY KEY (crate, account)) STRICT
CREATE TABLE versions (id INTEGER PRIMARY KEY CHECK (id >= 1), crate INTEGER NOT NULL \
REFERENCES crates (id), vers TEXT NOT NULL, release TEXT NOT NULL, digest BLOB NOT NULL, \
stem BLOB NOT NULL, description TEXT, yanked INTEGER NOT NULL CHECK (yanked IN (0, 1)), \
UNIQUE (crate, release)) STRICT
CREATE TABLE archives (version INTEGER PRIMARY KEY REFERENCES versions (id), bytes BLOB \
NOT NULL) STRICT
CREATE TABLE reserved (canon TEXT NOT NULL PRIMARY KEY) STRICT
CREATE TABLE summaries (crate INTEGER PRIMARY KEY REFERENCES crates (id), highest \
INTEGER NOT NULL REFERENCES versions (id), index_length INTEGER NOT NULL CHECK \
(index_length >= 0)) STRICT
INSERT INTO about (schema, base) VALUES (1, 'https://index.example')
INSERT INTO accounts (id, login, name, enabled) VALUES (1, 'ada', 'Ada', 1)
INSERT INTO accounts (id, login, name, enabled) VALUES (2, 'bob', NULL, 1)
INSERT INTO tokens (id, digest, account, live, publish_new, publish_update, yank, change_owners) \
VALUES (1, x'ba7816bf8f01cfea414140de5dae2223b00361a396177a9cb410ff61f20015ad', 1, 1, 1, 1, 1, 1)
INSERT INTO tokens (id, digest, account, live, publish_new, publish_update, yank, change_owners) \
VALUES (2, x'a52d159f262b2c6ddb724a61840befc36eb30c88877a4030b65cbe86298449c9', 2, 1, 1, 1, 1, 1)
INSERT INTO scopes (token, place, pattern, low, high) VALUES (1, 0, 'a', 'a', 'a!')
INSERT INTO scopes (token, place, pattern, low, high) VALUES (1, 1, '*', '', '{')
INSERT INTO scopes (token, place, pattern, low, high) VALUES (2, 0, 'acme-*', 'acme_', 'acme_{')
INSERT INTO crates (id, canon, name) VALUES (1, 'a', 'a')
INSERT INTO owners (crate, account) VALUES (1, 1)
INSERT INTO versions (id, crate, vers, release, digest, stem, description, yanked) \
VALUES (1, 1, '0.1.0', '0.1.0', \
x'ba7816bf8f01cfea414140de5dae2223b00361a396177a9cb410ff61f20015ad', x'', NULL, 0)
INSERT INTO archives (version, bytes) VALUES (1, x'616263')
INSERT INTO reserved (canon) VALUES ('acme_net')
INSERT INTO summaries (crate, highest, index_length) VALUES (1, 1, 175)";

/// The stem of the version's line.
const STEM: &str = "{\"cksum\":\
\"ba7816bf8f01cfea414140de5dae2223b00361a396177a9cb410ff61f20015ad\",\"deps\":[],\
\"features\":{},\"links\":null,\"name\":\"a\",\"rust_version\":null,\"vers\":\"0.1.0\",\
\"yanked\":";

/// Makes a store of schema 1 over a connection to an empty one.
pub fn make_old<S: Alter>(conn: &mut Connection<S>) -> Result<(), Error> {
    for statement in STATEMENTS.split('\n') {
        conn.execute(statement, &[])?;
    }
    conn.execute("UPDATE versions SET stem = ?1", params![STEM.as_bytes()])?;
    Ok(())
}
