//! Playing a script over tables.

ghost use Rattle.std.specs.Prelude.{◌≡◌};
ghost use Rattle.reg_tables.specs.Works.{AreOurs, IsActive};

use crate::answer::Answer;
use crate::call::Call;
use crate::calling::perform;
use crate::fault::Fault;
use crate::index_file::index_of;
use crate::records::Shown;
use crate::searching::search_text;
use crate::words::read_call;
use reg_audit::{Check, audit};
use reg_tables::{StoreFault, Tables, Work, rows_of};
use sqlite::{Alter, Connection, Row};
use std::alloc::{AllocError, Global};

pub const BASE: &str = "https://index.example";

/// Two accounts, two tokens, a crate of one version with the archive `abc`, and a reserved name.
pub const FILLED: &str = "add-account ada Ada -> 1
add-account bob -> 2
add-token abc 1 nuyo a,* -> 1
add-token abd 2 nuyo acme-* -> 2
add-crate a 1 0.1.0 abc -> 1
reserve acme-net -> done
commit -> done";

/// What a call was answered, as a text.
pub fn reply_text(alloc: Global, found: Result<Answer, StoreFault>) -> Result<String, AllocError> {
    match found {
        Ok(answer) => answer.text(alloc),
        Err(StoreFault) => String::from_str(alloc, "fault"),
    }
}

fn text_of_call<S: Alter>(
    alloc: Global,
    work: &mut Work<'_, S>,
    call: Call<'_>,
) -> Result<String, AllocError>
    requires { IsActive S.Store work.old }
    ensures at_work { IsActive S.Store work.new }
    ensures same_reference { work.new.tables.ghost_name ≡ work.old.tables.ghost_name }
{
    reply_text(alloc, perform(alloc, work, &call))
}

fn called<S: Alter>(alloc: Global, work: &mut Work<'_, S>, line: &str) -> Result<String, Fault>
    requires { IsActive S.Store work.old }
    ensures at_work { IsActive S.Store work.new }
    ensures same_reference { work.new.tables.ghost_name ≡ work.old.tables.ghost_name }
{
    match read_call(alloc, line)? {
        Some(call) => Ok(text_of_call(alloc, work, call)?),
        None => Ok(String::from_str(alloc, "no such call")?),
    }
}

/// What a call is answered, as a text.
pub fn answer_of<S: Alter>(
    alloc: Global,
    work: &mut Work<'_, S>,
    line: &str,
) -> Result<String, Fault>
    requires { IsActive S.Store work.old }
    ensures at_work { IsActive S.Store work.new }
    ensures same_reference { work.new.tables.ghost_name ≡ work.old.tables.ghost_name }
{
    match line.strip_prefix("index ") {
        Some(id) => Ok(index_of(alloc, work, id.parse().unwrap_or(0))?),
        None => called(alloc, work, line),
    }
}

/// The line and what was found, where it is not what the line says.
pub(crate) fn compare(
    alloc: Global,
    line: &str,
    want: &str,
    found: &str,
) -> Result<Option<String>, AllocError> {
    if found == want {
        return Ok(None);
    }
    format!(in alloc; "{line}: {found}").map(Some)
}

pub(crate) fn no_arrow(alloc: Global, line: &str) -> Result<Option<String>, AllocError> {
    format!(in alloc; "{line}: no arrow").map(Some)
}

/// What a line is answered, where it is not what the line says.
fn otherwise<S: Alter>(
    alloc: Global,
    work: &mut Work<'_, S>,
    line: &str,
) -> Result<Option<String>, Fault>
    requires { IsActive S.Store work.old }
    ensures at_work { IsActive S.Store work.new }
    ensures same_reference { work.new.tables.ghost_name ≡ work.old.tables.ghost_name }
{
    let Some((call, want)) = line.split_once(" -> ") else {
        return Ok(no_arrow(alloc, line)?);
    };
    let found = answer_of(alloc, work, call)?;
    Ok(compare(alloc, line, want, &found)?)
}

/// The first line of a block that is answered otherwise.
pub fn first_broken<S: Alter>(
    alloc: Global,
    work: &mut Work<'_, S>,
    block: &str,
) -> Result<Option<String>, Fault>
    requires { IsActive S.Store work.old }
    ensures at_work { IsActive S.Store work.new }
    ensures same_reference { work.new.tables.ghost_name ≡ work.old.tables.ghost_name }
{
    for line in block.split('\n') {
        let found = otherwise(alloc, work, line)?;
        if found.is_some() {
            return Ok(found);
        }
    }
    Ok(None)
}

/// The calls of a block, and whether its last line is a commit that is done or refused.
fn ending(block: &str) -> (&str, Option<bool>) {
    if let Some(calls) = block.strip_suffix("\ncommit -> done") {
        return (calls, Some(true));
    }
    match block.strip_suffix("\ncommit -> fault") {
        Some(calls) => (calls, Some(false)),
        None => (block, None),
    }
}

/// Whether the transaction ends as it shall; it is dropped where it shall not be committed.
fn ends<S: Alter>(work: Work<'_, S>, wanted: Option<bool>) -> bool
    requires { IsActive S.Store work }
    ensures { AreOurs S.Store work.exit.0.now }
{
    match wanted {
        Some(wanted) => work.commit().is_ok() == wanted,
        None => true,
    }
}

/// A transaction, which is dropped where its last line is no commit.
fn transaction<S: Alter>(
    alloc: Global,
    tables: &mut Tables<S>,
    block: &str,
) -> Result<Option<String>, Fault>
    requires { AreOurs S.Store tables.old }
    ensures { AreOurs S.Store tables.new }
{
    let (calls, wanted) = ending(block);
    let mut work = tables.upgrade()?;
    let broken = first_broken(alloc, &mut work, calls)?;
    if broken.is_some() {
        return Ok(broken);
    }
    if ends(work, wanted) {
        return Ok(None);
    }
    Ok(Some(format!(in alloc; "{block}: a commit answered otherwise")?))
}

/// Adds a space and what a call is answered.
fn add_answer<S: Alter>(
    alloc: Global,
    work: &mut Work<'_, S>,
    line: &str,
    text: &mut String,
) -> Result<(), Fault>
    requires { IsActive S.Store work.old }
    ensures at_work { IsActive S.Store work.new }
    ensures same_reference { work.new.tables.ghost_name ≡ work.old.tables.ghost_name }
{
    let answer = answer_of(alloc, work, line)?;
    text.push_str(" ")?;
    Ok(text.push_str(&answer)?)
}

fn add_rows<S: Alter>(alloc: Global, work: &mut Work<'_, S>, text: &mut String) -> Result<(), Fault>
    requires { IsActive S.Store work.old }
    ensures at_work { IsActive S.Store work.new }
    ensures same_reference { work.new.tables.ghost_name ≡ work.old.tables.ghost_name }
{
    add_answer(alloc, work, "all-rows", text)?;
    add_answer(alloc, work, "archive-id 1", text)?;
    add_answer(alloc, work, "archive-id 2", text)?;
    add_answer(alloc, work, "archive-id 3", text)?;
    add_answer(alloc, work, "readers 1", text)?;
    add_answer(alloc, work, "restricted 1", text)?;
    add_answer(alloc, work, "summary 1", text)
}

/// All rows, the archives of the first versions, and what else is kept of the first crate, as a
/// text.
pub fn rows_text<S: Alter>(alloc: Global, tables: &mut Tables<S>) -> Result<String, Fault>
    requires { AreOurs S.Store tables.old }
    ensures { AreOurs S.Store tables.new }
{
    let mut work = tables.upgrade()?;
    let mut text = String::new(alloc);
    add_rows(alloc, &mut work, &mut text)?;
    Ok(text)
}

/// The check that failed, as a text.
pub fn check_text(check: Option<Check>) -> &'static str {
    match check {
        None => "none",
        Some(Check::C1) => "C1",
        Some(Check::C2) => "C2",
        Some(Check::C3) => "C3",
        Some(Check::C4) => "C4",
        Some(Check::C5) => "C5",
        Some(Check::C6) => "C6",
        Some(Check::C7) => "C7",
        Some(Check::C8) => "C8",
    }
}

/// A line that is answered over the tables themselves, or a transaction.
fn line_over<S: Alter>(
    alloc: Global,
    tables: &mut Tables<S>,
    block: &str,
) -> Result<Option<String>, Fault>
    requires { AreOurs S.Store tables.old }
    ensures { AreOurs S.Store tables.new }
{
    let Some((line, want)) = block.split_once(" -> ") else {
        return Ok(no_arrow(alloc, block)?);
    };
    match line.strip_prefix("search ") {
        Some(words) => {
            let found = search_text(alloc, tables, words)?;
            Ok(compare(alloc, line, want, &found)?)
        }
        None => transaction(alloc, tables, block),
    }
}

/// A transaction, or a line that is answered over the tables themselves.
fn block_over<S: Alter>(
    alloc: Global,
    tables: &mut Tables<S>,
    block: &str,
) -> Result<Option<String>, Fault>
    requires { AreOurs S.Store tables.old }
    ensures { AreOurs S.Store tables.new }
{
    match block.split_once(" -> ") {
        Some(("audit", want)) => {
            let found = audit(alloc, tables)?;
            Ok(compare(alloc, block, want, check_text(found))?)
        }
        Some(("fill", "done")) => transaction(alloc, tables, FILLED),
        _ => line_over(alloc, tables, block),
    }
}

/// Plays a script: the first line that is answered otherwise, with its answer.
pub fn play_over<S: Alter>(
    alloc: Global,
    tables: &mut Tables<S>,
    script: &str,
) -> Result<Option<String>, Fault>
    requires { AreOurs S.Store tables.old }
    ensures { AreOurs S.Store tables.new }
{
    for block in script.split("\n\n") {
        let broken = block_over(alloc, tables, block)?;
        if broken.is_some() {
            return Ok(broken);
        }
    }
    Ok(None)
}

fn add_shown(alloc: Global, text: &mut String, row: &Row) -> Result<(), AllocError> {
    text.push_str(&row.show(alloc)?)
}

/// The logins, read in no transaction one at a time, as a text.
pub fn read_logins<S: Alter>(alloc: Global, tables: &mut Tables<S>) -> Result<String, Fault>
    requires { AreOurs S.Store tables.old }
{
    if tables.is_stopped() {
        return Err(Fault::Store);
    }
    let mut text = String::new(alloc);
    let mut rows = rows_of(
        tables.reading(),
        "SELECT id, login, name FROM accounts ORDER BY id",
        &[],
    )?;
    for _ in 0..u32::MAX {
        match rows.next()? {
            Some(row) => add_shown(alloc, &mut text, &row)?,
            None => return Ok(text),
        }
    }
    Ok(text)
}

/// Plays a script; its last block may read the logins.
fn play_last<S: Alter>(
    alloc: Global,
    tables: &mut Tables<S>,
    script: &str,
) -> Result<Option<String>, Fault>
    requires { AreOurs S.Store tables.old }
{
    let Some((before, want)) = script.split_once("\n\nread-logins -> ") else {
        return play_over(alloc, tables, script);
    };
    let broken = play_over(alloc, tables, before)?;
    if broken.is_some() {
        return Ok(broken);
    }
    let found = read_logins(alloc, tables)?;
    Ok(compare(alloc, "read-logins", want, &found)?)
}

/// Plays the rest of a script over the tables once they were given back and taken over again.
fn play_again<S: Alter + Drop>(
    alloc: Global,
    tables: Tables<S>,
    script: &str,
) -> Result<Option<String>, Fault> {
    let conn = tables.into_connection();
    if !conn.is_autocommit() {
        return Ok(Some(String::from_str(alloc, "adopt: a transaction is open")?));
    }
    match Tables::adopt(alloc, conn) {
        Ok(mut tables) => play_last(alloc, &mut tables, script),
        Err((_conn, _fault)) => Err(Fault::NotAdopted),
    }
}

fn play_in<S: Alter + Drop>(
    alloc: Global,
    mut tables: Tables<S>,
    script: &str,
) -> Result<Option<String>, Fault>
    requires { AreOurs S.Store tables }
{
    let Some((before, after)) = script.split_once("\n\nadopt -> done\n\n") else {
        return play_last(alloc, &mut tables, script);
    };
    let broken = play_last(alloc, &mut tables, before)?;
    if broken.is_some() {
        return Ok(broken);
    }
    play_again(alloc, tables, after)
}

fn play_new<S: Alter + Drop>(
    alloc: Global,
    conn: Connection<S>,
    script: &str,
) -> Result<Option<String>, Fault> {
    if !conn.is_autocommit() {
        return Err(Fault::NotMade);
    }
    match Tables::make(conn, BASE) {
        Ok(tables) => play_in(alloc, tables, script),
        Err((_conn, _fault)) => Err(Fault::NotMade),
    }
}

/// Plays a script over new tables in memory; `adopt -> done` gives them back and takes them over
/// again.
pub fn play(alloc: Global, script: &str) -> Result<Option<String>, Fault> {
    play_new(alloc, Connection::open_in_memory(alloc)?, script)
}
