//! The records of an answer as texts: each field, colons between them, a semicolon after each.

use crate::words::text_of;
use reg_line::digest_of;
use reg_model::Endpoints;
use reg_tables::{
    Account, AllRows, Archive, Crate, Pair, Scope, Summary, Token, TokenLists, TokenRow, TokenRows,
    Version,
};
use sqlite::Row;
use sqlite::types::ValueRef;
use std::alloc::{AllocError, Global};

/// What has a text.
pub(crate) trait Shown: Sized {
    fn show(&self, alloc: Global) -> Result<String, AllocError>;
}

/// The texts of all, or `none`.
pub(crate) fn list<T: Shown>(alloc: Global, items: &[T]) -> Result<String, AllocError> {
    let mut text = String::new(alloc);
    for item in items {
        text.push_str(&item.show(alloc)?)?;
    }
    if items.is_empty() {
        text.push_str("none")?;
    }
    Ok(text)
}

/// Its text, or `none`.
pub(crate) fn one<T: Shown>(alloc: Global, item: Option<&T>) -> Result<String, AllocError> {
    match item {
        Some(item) => item.show(alloc),
        None => String::from_str(alloc, "none"),
    }
}

fn word(is: bool, yes: &'static str, no: &'static str) -> &'static str {
    if is { yes } else { no }
}

fn enabled(is: bool) -> &'static str {
    word(is, "on", "off")
}

fn live(is: bool) -> &'static str {
    word(is, "live", "revoked")
}

fn letters(alloc: Global, endpoints: Endpoints) -> Result<String, AllocError> {
    format!(in alloc;
        "{}{}{}{}",
        word(endpoints.publish_new, "n", "-"),
        word(endpoints.publish_update, "u", "-"),
        word(endpoints.yank, "y", "-"),
        word(endpoints.change_owners, "o", "-")
    )
}

/// The word of the text whose digest this is, or the digest itself.
fn digest_text(alloc: Global, digest: &[u8]) -> Result<String, AllocError> {
    for text in ["-", "abc", "abd", "second"] {
        if digest == digest_of(text_of(text).as_bytes()).as_slice() {
            return format!(in alloc; "#{text}");
        }
    }
    hex::encode(alloc, digest)
}

/// The text that these bytes are, or the bytes themselves; `-` where there is none.
pub(crate) fn bytes_text(alloc: Global, bytes: &[u8]) -> Result<String, AllocError> {
    if bytes.is_empty() {
        return String::from_str(alloc, "-");
    }
    match str::from_utf8(bytes) {
        Ok(text) => String::from_str(alloc, text),
        Err(_) => hex::encode(alloc, bytes),
    }
}

impl Shown for Account {
    fn show(&self, alloc: Global) -> Result<String, AllocError> {
        let name = self.name.as_deref().unwrap_or("-");
        format!(in alloc;
            "{}:{}:{name}:{};",
            self.id,
            self.login,
            enabled(self.enabled)
        )
    }
}

impl Shown for Pair {
    fn show(&self, alloc: Global) -> Result<String, AllocError> {
        format!(in alloc; "{}:{};", self.crate_id, self.account)
    }
}

impl Shown for Crate {
    fn show(&self, alloc: Global) -> Result<String, AllocError> {
        format!(in alloc; "{}:{}:{};", self.id, self.canon, self.name)
    }
}

impl Shown for Scope {
    fn show(&self, alloc: Global) -> Result<String, AllocError> {
        let Scope {
            token,
            place,
            pattern,
            low,
            high,
        } = self;
        format!(in alloc; "{token}:{place}:{pattern}:{low}:{high};")
    }
}

impl Shown for Token {
    fn show(&self, alloc: Global) -> Result<String, AllocError> {
        let digest = digest_text(alloc, self.digest.as_slice())?;
        let endpoints = letters(alloc, self.endpoints)?;
        let live = live(self.live);
        format!(in alloc; "{}:{digest}:{}:{live}:{endpoints};", self.id, self.account)
    }
}

impl Shown for TokenRow {
    fn show(&self, alloc: Global) -> Result<String, AllocError> {
        let endpoints = letters(alloc, self.endpoints)?;
        let live = live(self.live);
        format!(in alloc;
            "{}:{}:{live}:{endpoints}:{}:{};",
            self.id,
            self.account,
            self.login,
            enabled(self.enabled)
        )
    }
}

impl Shown for TokenRows {
    fn show(&self, alloc: Global) -> Result<String, AllocError> {
        let token = self.token.show(alloc)?;
        let scopes = list(alloc, &self.scopes)?;
        format!(in alloc; "{token} {scopes}")
    }
}

impl Shown for TokenLists {
    fn show(&self, alloc: Global) -> Result<String, AllocError> {
        let tokens = list(alloc, &self.tokens)?;
        let scopes = list(alloc, &self.scopes)?;
        format!(in alloc; "{tokens} {scopes}")
    }
}

impl Shown for Version {
    fn show(&self, alloc: Global) -> Result<String, AllocError> {
        let digest = digest_text(alloc, self.digest.as_slice())?;
        let stem = bytes_text(alloc, self.stem.as_slice())?;
        let description = self.description.as_deref().unwrap_or("-");
        let yanked = word(self.yanked, "yanked", "kept");
        format!(in alloc;
            "{}:{}:{}:{}:{digest}:{description}:{yanked}:{stem};",
            self.id, self.crate_id, self.vers, self.release
        )
    }
}

impl Shown for Summary {
    fn show(&self, alloc: Global) -> Result<String, AllocError> {
        format!(in alloc; "{}:{}:{};", self.crate_id, self.highest, self.index_length)
    }
}

impl Shown for u32 {
    fn show(&self, alloc: Global) -> Result<String, AllocError> {
        format!(in alloc; "{self};")
    }
}

impl Shown for String {
    fn show(&self, alloc: Global) -> Result<String, AllocError> {
        format!(in alloc; "{self};")
    }
}

fn column_text(alloc: Global, row: &Row, at: usize) -> Result<String, AllocError> {
    match row.get_ref(at) {
        Ok(ValueRef::Null) => String::from_str(alloc, "-"),
        Ok(ValueRef::Int(number)) => format!(in alloc; "{number}"),
        Ok(ValueRef::Text(bytes)) => bytes_text(alloc, bytes),
        other => format!(in alloc; "{other:?}"),
    }
}

impl Shown for Row {
    fn show(&self, alloc: Global) -> Result<String, AllocError> {
        let mut text = String::new(alloc);
        for at in 0..self.column_count() {
            if at > 0 {
                text.push_str(":")?;
            }
            text.push_str(&column_text(alloc, self, at)?)?;
        }
        text.push_str(";")?;
        Ok(text)
    }
}

fn of_tokens(alloc: Global, rows: &AllRows) -> Result<String, AllocError> {
    let accounts = list(alloc, &rows.accounts)?;
    let tokens = list(alloc, &rows.tokens)?;
    let scopes = list(alloc, &rows.scopes)?;
    format!(in alloc; "{} {accounts} {tokens} {scopes}", rows.base)
}

fn of_crates(alloc: Global, rows: &AllRows) -> Result<String, AllocError> {
    let crates = list(alloc, &rows.crates)?;
    let owners = list(alloc, &rows.owners)?;
    let versions = list(alloc, &rows.versions)?;
    format!(in alloc; "{crates} {owners} {versions}")
}

impl Shown for Archive {
    fn show(&self, alloc: Global) -> Result<String, AllocError> {
        let bytes = bytes_text(alloc, &self.bytes)?;
        format!(in alloc; "{}:{bytes};", self.version)
    }
}

fn kept_of_crates(alloc: Global, rows: &AllRows) -> Result<String, AllocError> {
    let summaries = list(alloc, &rows.summaries)?;
    let restricted = list(alloc, &rows.restricted)?;
    let readers = list(alloc, &rows.readers)?;
    format!(in alloc; "{summaries} {restricted} {readers}")
}

impl Shown for AllRows {
    fn show(&self, alloc: Global) -> Result<String, AllocError> {
        let of_tokens = of_tokens(alloc, self)?;
        let of_crates = of_crates(alloc, self)?;
        let reserved = list(alloc, &self.reserved)?;
        let kept_of_crates = kept_of_crates(alloc, self)?;
        format!(in alloc; "{of_tokens} {of_crates} {reserved} {kept_of_crates}")
    }
}
