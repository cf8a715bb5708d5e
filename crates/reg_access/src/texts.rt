//! The queries that decide access, one per function.

ghost use Rattle.std.specs.Prelude.{◌≡◌, pos};
ghost use Rattle.sqlite.specs.declared.types.Value.TheVariants.{Int};
ghost use Rattle.reg_tables_schema.specs.Rows.{number_columns};
ghost use Rattle.reg_tables_schema.specs.Shown.{shown_of};
ghost use Rattle.reg_tables_sql.specs.Tokens.{IsTokenOfDigest};
ghost use Rattle.reg_tables.specs.Works.{IsActive};
ghost use Rattle.reg_tables.specs.Calling.{Queries};
ghost use Rattle.reg_access.specs.Found.{rows_of};
ghost use Rattle.reg_access.specs.JoinRows.{crates_seen_by, is_there, reserved_as, scopes_over, versions_of_release, versions_with_text};

use crate::found::CrateRow;
use reg_line::Digest;
use reg_names::CanonText;
use reg_tables::{Result, TokenRow, Work};
use reg_tables_sql::reserved::BY_CANON_TEXT;
use reg_tables_sql::tokens::BY_DIGEST_TEXT;
use reg_versions::release_key;
use sqlite::{Alter, params};

/// The token with this digest, with its account, if there is one.
pub(crate) fn find_token<S: Alter>(
    work: &mut Work<'_, S>,
    digest: &Digest,
) -> Result<Option<TokenRow>>
    requires { IsActive S.Store work.old }
    ensures { Queries S.Store work.old work.new result (IsTokenOfDigest digest.now) }
{
    work.select_one(BY_DIGEST_TEXT, params![digest.as_slice()])
}

const IS_COVERED_TEXT: &str =
    "SELECT s.place FROM tokens t JOIN scopes s ON s.token = t.id WHERE t.id = ?1 AND s.low <= ?2 \
    AND ?2 < s.high";

/// Whether a scope of the token covers the canonical text.
pub(crate) fn is_covered<S: Alter>(
    work: &mut Work<'_, S>,
    token: u32,
    canon: &CanonText,
) -> Result<bool>
    requires { IsActive S.Store work.old }
    ensures { Queries S.Store work.old work.new result
        (λ db b. is_there (scopes_over (Int (pos token)) canon.now db) ≡ b) }
{
    work.has_row(IS_COVERED_TEXT, params![token, canon.as_str()])
}

const FIND_CRATE_TEXT: &str =
    "SELECT c.id, c.name, o.account, r.crate, d.account FROM crates c LEFT JOIN owners o ON \
    o.crate = c.id AND o.account = ?2 LEFT JOIN restricted r ON r.crate = c.id LEFT JOIN readers d \
    ON d.crate = c.id AND d.account = ?2 WHERE c.canon = ?1";

/// The crate with this canonical text, and what the account is to it.
pub(crate) fn find_crate<S: Alter>(
    work: &mut Work<'_, S>,
    canon: &CanonText,
    account: u32,
) -> Result<Option<CrateRow>>
    requires { IsActive S.Store work.old }
    ensures { Queries S.Store work.old work.new result
        (λ db found. crates_seen_by canon.now (Int (pos account)) db ≡ rows_of found) }
{
    work.select_one(FIND_CRATE_TEXT, params![canon.as_str(), account])
}

const FIND_VERSION_TEXT: &str =
    "SELECT id FROM versions WHERE crate = ?1 AND release = ?2 AND vers = ?3";

/// The id of the crate's version with this text, if it has one.
pub(crate) fn find_version<S: Alter>(
    work: &mut Work<'_, S>,
    of_crate: u32,
    text: &str,
) -> Result<Option<u64>>
    requires { IsActive S.Store work.old }
    ensures { Queries S.Store work.old work.new result (λ db found.
        versions_with_text (Int (pos of_crate)) text.now db ≡ shown_of number_columns found) }
{
    work.select_one(
        FIND_VERSION_TEXT,
        params![of_crate, release_key(text), text],
    )
}

const HAS_RELEASE_TEXT: &str = "SELECT id FROM versions WHERE crate = ?1 AND release = ?2";

/// Whether the crate has a version of this text's release.
pub(crate) fn has_release<S: Alter>(
    work: &mut Work<'_, S>,
    of_crate: u32,
    text: &str,
) -> Result<bool>
    requires { IsActive S.Store work.old }
    ensures { Queries S.Store work.old work.new result
        (λ db b. is_there (versions_of_release (Int (pos of_crate)) text.now db) ≡ b) }
{
    work.has_row(HAS_RELEASE_TEXT, params![of_crate, release_key(text)])
}

/// Whether the administrator reserved the canonical text.
pub(crate) fn is_reserved<S: Alter>(work: &mut Work<'_, S>, canon: &CanonText) -> Result<bool>
    requires { IsActive S.Store work.old }
    ensures { Queries S.Store work.old work.new result
        (λ db b. is_there (reserved_as canon.now db) ≡ b) }
{
    work.has_row(BY_CANON_TEXT, params![canon.as_str()])
}
