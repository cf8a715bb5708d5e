//! What the tables say about an action's crate.

ghost use Rattle.std.specs.Prelude.{◌≡◌, false, pos, Some};
ghost use Rattle.reg_model.specs.Actions.{crate_of as crate_asked};
ghost use Rattle.sqlite.specs.declared.types.Value.TheVariants.{Int};
ghost use Rattle.reg_policy.specs.Views.{action_of};
ghost use Rattle.reg_tables_schema.specs.Rows.{number_columns};
ghost use Rattle.reg_tables_schema.specs.Shown.{shown_of};
ghost use Rattle.reg_tables.specs.Works.{IsActive, has_failed};
ghost use Rattle.reg_tables.specs.Calling.{Queries};
ghost use Rattle.reg_access.specs.Found.{AreFound, rows_of, scopes_asked};
ghost use Rattle.reg_access.specs.JoinRows.{against_rows, is_there, named_rows, value_at, versions_with_text};

use crate::found::CrateRow;
use crate::texts::{find_crate, find_version, has_release, is_covered, is_reserved};
use reg_names::{CrateName, canon};
use reg_policy::{Action, crate_of, needed};
use reg_tables::{Result, TokenRow, Work};
use sqlite::Alter;

/// What was found about an action's crate; what the action does not ask is false or missing.
#[derive(Drop)]
pub(crate) struct CrateFacts {
    /// Whether a scope of the token covers its name.
    pub covered: bool,
    pub row: Option<CrateRow>,
    /// The id of the version that the action names, if it is there.
    pub version: Option<u64>,
    /// What stands against a publication: a version of its release or, if the crate is not there,
    /// that its name is reserved.
    pub against: bool,
}

fn find_scopes<S: Alter>(
    work: &mut Work<'_, S>,
    token: u32,
    name: &CrateName,
    action: &Action,
) -> Result<bool>
    requires at_work { IsActive S.Store work.old }
    requires goes_on { has_failed work.old ≡ false }
    requires named { crate_asked (action_of action.now) ≡ Some name.now }
    ensures { Queries S.Store work.old work.new result
        (λ db b. is_there (scopes_asked (action_of action.now) token db) ≡ b) }
{
    if needed(false, action).is_none() {
        return Ok(false);
    }
    is_covered(work, token, &canon(name))
}

fn find_version_of<S: Alter>(
    work: &mut Work<'_, S>,
    row: &Option<CrateRow>,
    text: &str,
) -> Result<Option<u64>>
    requires at_work { IsActive S.Store work.old }
    requires goes_on { has_failed work.old ≡ false }
    ensures { Queries S.Store work.old work.new result
        (λ db found. versions_with_text (value_at (rows_of row.now) 0) text.now db
        ≡ shown_of number_columns found) }
{
    match row {
        None => Ok(None),
        Some(row) => find_version(work, row.id, text),
    }
}

/// The id of the version that the action names, if the crate that was found has it.
fn find_version_named<S: Alter>(
    work: &mut Work<'_, S>,
    row: &Option<CrateRow>,
    action: &Action,
) -> Result<Option<u64>>
    requires at_work { IsActive S.Store work.old }
    requires goes_on { has_failed work.old ≡ false }
    ensures { Queries S.Store work.old work.new result
        (λ db found. named_rows (action_of action.now) (rows_of row.now) db
        ≡ shown_of number_columns found) }
{
    match action {
        Action::Download(_, version) | Action::Yank(_, version) | Action::Unyank(_, version) => {
            find_version_of(work, row, version)
        }
        Action::Read | Action::Index(_) | Action::ListOwners(_) | Action::Publish(_, _) => Ok(None),
        Action::AddOwners(_, _) | Action::RemoveOwners(_, _) => Ok(None),
    }
}

/// Whether something stands against a publication, given the crate that was found.
fn stands_against<S: Alter>(
    work: &mut Work<'_, S>,
    row: &Option<CrateRow>,
    action: &Action,
) -> Result<bool>
    requires at_work { IsActive S.Store work.old }
    requires goes_on { has_failed work.old ≡ false }
    ensures { Queries S.Store work.old work.new result
        (λ db b. is_there (against_rows (action_of action.now) (rows_of row.now) db) ≡ b) }
{
    match action {
        Action::Publish(name, version) => match row {
            Some(row) => has_release(work, row.id, version),
            None => is_reserved(work, &canon(name)),
        },
        Action::Read | Action::Index(_) | Action::Download(_, _) | Action::ListOwners(_) => {
            Ok(false)
        }
        Action::Yank(_, _) | Action::Unyank(_, _) => Ok(false),
        Action::AddOwners(_, _) | Action::RemoveOwners(_, _) => Ok(false),
    }
}

fn find_named<S: Alter>(
    work: &mut Work<'_, S>,
    token: &TokenRow,
    name: &CrateName,
    action: &Action,
) -> Result<CrateFacts>
    requires at_work { IsActive S.Store work.old }
    requires goes_on { has_failed work.old ≡ false }
    requires named { crate_asked (action_of action.now) ≡ Some name.now }
    ensures { Queries S.Store work.old work.new result
        (AreFound (action_of action.now) token.now.id token.now.account) }
{
    let covered = find_scopes(work, token.id, name, action)?;
    let row = find_crate(work, &canon(name), token.account)?;
    let version = find_version_named(work, &row, action)?;
    let against = stands_against(work, &row, action)?;
    Ok(CrateFacts {
        covered,
        row,
        version,
        against,
    })
}

/// What the tables say about an action's crate, for this token.
pub(crate) fn find_all<S: Alter>(
    work: &mut Work<'_, S>,
    token: &TokenRow,
    action: &Action,
) -> Result<CrateFacts>
    requires at_work { IsActive S.Store work.old }
    requires goes_on { has_failed work.old ≡ false }
    ensures { Queries S.Store work.old work.new result
        (AreFound (action_of action.now) token.now.id token.now.account) }
{
    match crate_of(action) {
        None => Ok(CrateFacts {
            covered: false,
            row: None,
            version: None,
            against: false,
        }),
        Some(name) => find_named(work, token, &name, action),
    }
}
