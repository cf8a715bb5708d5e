//! Making a call in a transaction.

ghost use Rattle.std.specs.Prelude.{◌≡◌};
ghost use Rattle.reg_tables.specs.Works.{IsActive};

use crate::answer::Answer;
use crate::call::{AccountCall, Call, CrateCall, NameCall, ReaderCall, TextCall, TokenCall};
use reg_tables::{StoreFault, Work};
use sqlite::{Alter, params};
use std::alloc::Global;

/// The answer of a call that has none but that it was done.
fn done(answer: Result<(), StoreFault>) -> Result<Answer, StoreFault> {
    answer?;
    Ok(Answer::Done)
}

/// The same of a call that answers whether it changed something, which the rows behind it show.
fn set(answer: Result<bool, StoreFault>) -> Result<Answer, StoreFault> {
    answer?;
    Ok(Answer::Done)
}

fn on_accounts<S: Alter>(
    alloc: Global,
    work: &mut Work<'_, S>,
    call: AccountCall<'_>,
) -> Result<Answer, StoreFault>
    requires { IsActive S.Store work.old }
    ensures at_work { IsActive S.Store work.new }
    ensures same_reference { work.new.tables.ghost_name ≡ work.old.tables.ghost_name }
{
    match call {
        AccountCall::Add(login, name) => work.add_account(login, name).map(Answer::Id),
        AccountCall::Enable(id, enabled) => done(work.set_enabled(id, enabled)),
        AccountCall::ByLogin(login) => work.account_by_login(login).map(Answer::Account),
        AccountCall::All => work.all_accounts(alloc).map(Answer::Accounts),
        AccountCall::Counts => work.counts().map(Answer::Counts),
        AccountCall::ReachesCrates(number) => work.reaches_crates(number).map(Answer::Is),
    }
}

fn on_tokens<S: Alter>(
    alloc: Global,
    work: &mut Work<'_, S>,
    call: &TokenCall,
) -> Result<Answer, StoreFault>
    requires { IsActive S.Store work.old }
    ensures at_work { IsActive S.Store work.new }
    ensures same_reference { work.new.tables.ghost_name ≡ work.old.tables.ghost_name }
{
    match call {
        TokenCall::Add(token) => work
            .add_token(
                alloc,
                &token.digest,
                token.account,
                token.endpoints,
                &token.patterns,
            )
            .map(Answer::Id),
        TokenCall::Revoke(id) => done(work.revoke(*id)),
        TokenCall::Find(digest) => work.token_rows(alloc, digest).map(Answer::Token),
        TokenCall::All => work.all_tokens(alloc).map(Answer::Tokens),
    }
}

fn on_crates<S: Alter>(
    alloc: Global,
    work: &mut Work<'_, S>,
    call: &CrateCall<'_>,
) -> Result<Answer, StoreFault>
    requires { IsActive S.Store work.old }
    ensures at_work { IsActive S.Store work.new }
    ensures same_reference { work.new.tables.ghost_name ≡ work.old.tables.ghost_name }
{
    match call {
        CrateCall::Add(name, account, release) => work
            .add_crate(name, *account, &release.new_version())
            .map(Answer::Id),
        CrateCall::AddVersion(id, release) => done(work.add_version(*id, &release.new_version())),
        CrateCall::Yank(id, text, yanked) => set(work.set_yanked(*id, text, *yanked)),
        CrateCall::All => work.all_crates(alloc).map(Answer::Crates),
        CrateCall::Versions(id) => work.versions_of(alloc, *id).map(Answer::Versions),
        CrateCall::Summary(id) => work.summary_of(*id).map(Answer::Summary),
        CrateCall::Archive(id, text) => work.archive_of(*id, text).map(Answer::Archive),
        CrateCall::ArchiveWithId(id) => work.archive_with_id(*id).map(Answer::ArchiveWithId),
    }
}

fn on_names<S: Alter>(
    alloc: Global,
    work: &mut Work<'_, S>,
    call: &NameCall,
) -> Result<Answer, StoreFault>
    requires { IsActive S.Store work.old }
    ensures at_work { IsActive S.Store work.new }
    ensures same_reference { work.new.tables.ghost_name ≡ work.old.tables.ghost_name }
{
    match call {
        NameCall::Crate(name) => work.crate_by_canon(name).map(Answer::Crate),
        NameCall::Reserve(name) => set(work.reserve(name)),
        NameCall::Unreserve(name) => set(work.unreserve(name)),
        NameCall::IsReserved(name) => work.is_reserved(name).map(Answer::Is),
        NameCall::AddOwner(id, account) => set(work.add_owner(*id, *account)),
        NameCall::RemoveOwner(id, account) => set(work.remove_owner(*id, *account)),
        NameCall::Owners(id) => work.owners_of(alloc, *id).map(Answer::Owners),
    }
}

fn on_readers<S: Alter>(
    alloc: Global,
    work: &mut Work<'_, S>,
    call: ReaderCall,
) -> Result<Answer, StoreFault>
    requires { IsActive S.Store work.old }
    ensures at_work { IsActive S.Store work.new }
    ensures same_reference { work.new.tables.ghost_name ≡ work.old.tables.ghost_name }
{
    match call {
        ReaderCall::Restrict(id, restricted) => set(work.set_restricted(id, restricted)),
        ReaderCall::IsRestricted(id) => work.is_restricted(id).map(Answer::Is),
        ReaderCall::Add(id, account) => set(work.add_reader(id, account)),
        ReaderCall::Remove(id, account) => set(work.remove_reader(id, account)),
        ReaderCall::All(id) => work.readers_of(alloc, id).map(Answer::Owners),
    }
}

#[tactic(auto, using(crate::proofs::Texts::logins_plain, crate::proofs::Texts::by_login_plain))]
fn on_texts<S: Alter>(
    alloc: Global,
    work: &mut Work<'_, S>,
    call: TextCall<'_>,
) -> Result<Answer, StoreFault>
    requires { IsActive S.Store work.old }
    ensures at_work { IsActive S.Store work.new }
    ensures same_reference { work.new.tables.ghost_name ≡ work.old.tables.ghost_name }
{
    match call {
        TextCall::AllRows => work.all_rows(alloc).map(Answer::All),
        TextCall::Logins => work
            .select("SELECT id, login, name FROM accounts ORDER BY id", &[])
            .map(Answer::Selected),
        TextCall::IdOf(login) => work
            .select("SELECT id FROM accounts WHERE login = ?1", params![login])
            .map(Answer::Selected),
    }
}

/// Makes the call.
pub fn perform<S: Alter>(
    alloc: Global,
    work: &mut Work<'_, S>,
    call: &Call<'_>,
) -> Result<Answer, StoreFault>
    requires { IsActive S.Store work.old }
    ensures at_work { IsActive S.Store work.new }
    ensures same_reference { work.new.tables.ghost_name ≡ work.old.tables.ghost_name }
{
    match call {
        Call::Account(call) => on_accounts(alloc, work, *call),
        Call::Token(call) => on_tokens(alloc, work, call),
        Call::Crate(call) => on_crates(alloc, work, call),
        Call::Name(call) => on_names(alloc, work, call),
        Call::Reader(call) => on_readers(alloc, work, *call),
        Call::Text(call) => on_texts(alloc, work, *call),
    }
}
