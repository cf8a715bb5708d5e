//! Tables, transactions, and the calls in them, over a store in memory.

ghost use Rattle.std.specs.Prelude.{◌≡◌, false};
ghost use Rattle.sqlite.specs.Given.{IsPlain};
ghost use Rattle.sqlite.specs.Held.{state};
ghost use Rattle.sqlite.specs.Listing.{understood};
ghost use Rattle.sqlite.specs.Steps.{over_memory};
ghost use Rattle.reg_tables_schema.specs.Schema.{ours};
ghost use Rattle.reg_tables.specs.Works.{IsActive};

use reg_line::Digest;
use reg_names::{CanonText, CrateName, Pattern};
use reg_policy::Endpoints;
use reg_tables::{
    Account, Counts, Crate, MakeFault, NewVersion, Scope, StoreFault, Summary, Tables, Token,
    TokenLists, TokenRow, TokenRows, Version, Work,
};
use sqlite::types::ValueRef;
use sqlite::{Connection, Error, MemStore, Row, Rows};
use std::alloc::Global;

const _: [MakeFault; 2] = [MakeFault::UnknownSchema, MakeFault::Storage];

const _: StoreFault = StoreFault;

const _: NewVersion<'static> = NewVersion {
    text: "",
    description: Some(""),
    stem: b"",
    digest: &[0u8; 32],
    archive: b"",
};

const _: Counts = Counts {
    accounts: 0u64,
    tokens: 0u64,
    crates: 0u64,
    publications: 0u64,
};

const _: Summary = Summary {
    crate_id: 0u32,
    highest: 0u64,
    index_length: 0u64,
};

const _: for<'c> fn(
    &'c mut Connection<MemStore>,
    &str,
    &[ValueRef<'_>],
) -> Result<Rows<'c, MemStore>, Error> = reg_tables::rows_of;

const _: for<'c> fn(&'c mut Connection<MemStore>, u32) -> Result<Rows<'c, MemStore>, Error> =
    reg_tables::index_rows;

const _: fn() = reg_tables_represent::laws::migrate_law;

fn make(
    conn: Connection<MemStore>,
    base: &str,
) -> Result<Tables<MemStore>, (Connection<MemStore>, MakeFault)>
    requires { (state over_memory conn).in_transaction ≡ false }
{
    Tables::make(conn, base)
}

fn adopt(
    alloc: Global,
    conn: Connection<MemStore>,
) -> Result<Tables<MemStore>, (Connection<MemStore>, MakeFault)>
    requires { (state over_memory conn).in_transaction ≡ false }
{
    Tables::adopt(alloc, conn)
}

fn select(
    work: &mut Work<'_, MemStore>,
    text: &str,
    params: &[ValueRef<'_>],
) -> Result<Vec<Row>, StoreFault>
    requires at_work { IsActive over_memory work.old }
    requires reads { IsPlain (understood ours text.now) }
{
    Work::select(work, text, params)
}

fn take_connection(tables: Tables<MemStore>) -> Connection<MemStore> {
    Tables::into_connection(tables)
}

fn use_transactions(tables: &mut Tables<MemStore>) {
    return;
    let _: Result<bool, StoreFault> = Tables::migrate(tables);
    let _: &mut Connection<MemStore> = Tables::reading(tables);
    let work: Result<Work<'_, MemStore>, StoreFault> = Tables::work(tables);
    if let Ok(work) = work {
        let _: Result<(), StoreFault> = Work::commit(work);
    }
}

fn change_rows(
    alloc: Global,
    work: &mut Work<'_, MemStore>,
    digest: &Digest,
    endpoints: Endpoints,
    patterns: &[Pattern],
    name: &CrateName,
    canon: &CanonText,
) {
    return;
    let version: NewVersion<'_> = NewVersion {
        text: "",
        description: None,
        stem: b"",
        digest,
        archive: b"",
    };
    let _: Result<u32, StoreFault> = Work::add_account(work, "", Some(""));
    let _: Result<(), StoreFault> = Work::set_enabled(work, 1u32, true);
    let _: Result<u32, StoreFault> = Work::add_token(
        work, alloc, digest, 1u32, endpoints, patterns,
    );
    let _: Result<(), StoreFault> = Work::revoke(work, 1u32);
    let _: Result<bool, StoreFault> = Work::reserve(work, canon);
    let _: Result<bool, StoreFault> = Work::unreserve(work, canon);
    let _: Result<u32, StoreFault> = Work::add_crate(work, name, 1u32, &version);
    let _: Result<bool, StoreFault> = Work::add_owner(work, 1u32, 1u32);
    let _: Result<bool, StoreFault> = Work::remove_owner(work, 1u32, 1u32);
    let _: Result<(), StoreFault> = Work::add_version(work, 1u32, &version);
    let _: Result<bool, StoreFault> = Work::set_yanked(work, 1u32, "", true);
    let _: Result<bool, StoreFault> = Work::set_restricted(work, 1u32, true);
    let _: Result<bool, StoreFault> = Work::add_reader(work, 1u32, 1u32);
    let _: Result<bool, StoreFault> = Work::remove_reader(work, 1u32, 1u32);
}

fn select_rows(alloc: Global, work: &mut Work<'_, MemStore>, digest: &Digest, canon: &CanonText) {
    return;
    let _: Result<Option<Account>, StoreFault> = Work::account_by_login(work, "");
    let _: Result<Option<TokenRows>, StoreFault> = Work::token_rows(work, alloc, digest);
    let _: Result<Option<Crate>, StoreFault> = Work::crate_by_canon(work, canon);
    let _: Result<Vec<Account>, StoreFault> = Work::owners_of(work, alloc, 1u32);
    let _: Result<Vec<Version>, StoreFault> = Work::versions_of(work, alloc, 1u32);
    let _: Result<Option<Vec<u8>>, StoreFault> = Work::archive_of(work, 1u32, "");
    let _: Result<bool, StoreFault> = Work::is_reserved(work, canon);
    let _: Result<Counts, StoreFault> = Work::counts(work);
    let _: Result<Vec<Account>, StoreFault> = Work::all_accounts(work, alloc);
    let _: Result<TokenLists, StoreFault> = Work::all_tokens(work, alloc);
    let _: Result<Vec<Crate>, StoreFault> = Work::all_crates(work, alloc);
    let _: Result<Option<Summary>, StoreFault> = Work::summary_of(work, 1u32);
    let _: Result<bool, StoreFault> = Work::is_restricted(work, 1u32);
    let _: Result<Vec<Account>, StoreFault> = Work::readers_of(work, alloc, 1u32);
}

fn fill_accounts_and_tokens(alloc: Global, endpoints: Endpoints, row: TokenRow) {
    return;
    let _ = Account {
        id: 1u32,
        login: String::new(alloc),
        name: None::<String>,
        enabled: true,
    };
    let _ = Token {
        id: 1u32,
        digest: Vec::<u8>::new(alloc),
        account: 1u32,
        live: true,
        endpoints,
    };
    let _ = TokenRows {
        token: row,
        scopes: Vec::<Scope>::new(alloc),
    };
    let _ = TokenLists {
        tokens: Vec::<Token>::new(alloc),
        scopes: Vec::<Scope>::new(alloc),
    };
    let _ = Scope {
        token: 1u32,
        place: 0u64,
        pattern: String::new(alloc),
        low: String::new(alloc),
        high: String::new(alloc),
    };
}

fn fill_crates_and_versions(alloc: Global) {
    return;
    let _ = Crate {
        id: 1u32,
        canon: String::new(alloc),
        name: String::new(alloc),
    };
    let _ = Version {
        id: 1u64,
        crate_id: 1u32,
        vers: String::new(alloc),
        release: String::new(alloc),
        digest: Vec::<u8>::new(alloc),
        stem: Vec::<u8>::new(alloc),
        description: None::<String>,
        yanked: false,
    };
}
