//! Index files that were found, sent or read.

ghost use Rattle.std.specs.Prelude.{◌≡◌, ◌+◌, ◌^◌, ◌<◌, ◌⊎◌, Err, IfOk, MatchBool, false, true};
ghost use Rattle.sqlite.specs.State.{HasCleanDisk};
ghost use Rattle.reg_body.specs.Sent.{sink};
ghost use Rattle.reg_tables_represent.specs.Walks.{IsRead};
ghost use Rattle.reg_tables.specs.Works.{AreOurs, IsLeft, edition_in, held, is_stopped, shown};
ghost use Rattle.reg_service_index.specs.Files.{EndsItself, IsFileText, SendsFile, SendsNoRoom, SendsRows, SendsSome};

use crate::fault::IndexFault;
use crate::files::send_rows;
use crate::found::FoundFile;
use http::StatusCode;
use reg_api_replies::{Kind, Reply, reply_head, write_reply};
use reg_body::Counted;
use reg_policy::Rule;
use reg_tables::{SchemaVersion, Tables};
use sqlite::Alter;
use std::alloc::Global;
use std::io::Write;

/// Sends the reply where the store failed before.
fn send_no_room<W: Write>(w: &mut Counted<W>, close: bool, writes: u64) -> Result<u64, IndexFault>
    requires { w.old.calls + writes < 2 ^ 64 }
    ensures refuses { SendsNoRoom close result writes (sink (W.contents w.old.inner) w.old)
        (sink (W.contents w.new.inner) w.new) }
    ensures some { SendsSome result writes (sink (W.contents w.old.inner) w.old)
        (sink (W.contents w.new.inner) w.new) }
{
    let used = write_reply(w, &Reply::Denied(Rule::S1), close, false, writes)?;
    Ok(used)
}

/// Whether the store failed before anything was sent, by the calls before and after.
fn is_unsent(sent: &Result<u64, IndexFault>, before: u64, after: u64) -> bool
    ensures { let unsent = (sent.now ≡ Err IndexFault.Store) × (after ≡ before) in
        MatchBool result unsent (¬ unsent) }
{
    match sent {
        Err(IndexFault::Store) => before == after,
        _ => false,
    }
}

/// Sends a text and the rows behind it, of tables that are used afterwards.
fn send_over<S: Alter, W: Write>(
    tables: &mut Tables<S>,
    crate_id: u32,
    front: &[u8],
    w: &mut Counted<W>,
    writes: u64,
) -> Result<u64, IndexFault>
    requires ours { AreOurs S.Store tables.old }
    requires second { edition_in tables.old ≡ SchemaVersion.Second }
    requires open { is_stopped tables.old ≡ false }
    requires room { w.old.calls + writes < 2 ^ 64 }
    ensures rows { SendsRows S.Store crate_id front.now result writes (held tables.old)
        (held tables.new) (sink (W.contents w.old.inner) w.old)
        (sink (W.contents w.new.inner) w.new) }
    ensures reads { IsRead S.Store result (held tables.old) (held tables.new) }
    ensures shut { is_stopped tables.new ≡ is_stopped tables.old }
    ensures edition { edition_in tables.new ≡ edition_in tables.old }
    ensures ends { result ≡ Err IndexFault.Store → (w.new.calls ≡ w.old.calls)
        ⊎ EndsItself S.Store crate_id (held tables.new) }
{
    send_rows(tables.reading(), crate_id, front, w, writes)
}

/// Sends the file with its head; if the store fails before anything is sent, the reply says so. The
/// tables are only read.
pub fn send_file<S: Alter, W: Write>(
    tables: &mut Tables<S>,
    file: &FoundFile,
    close: bool,
    w: &mut Counted<W>,
    writes: u64,
) -> Result<u64, IndexFault>
    requires ours { AreOurs S.Store tables.old }
    requires second { edition_in tables.old ≡ SchemaVersion.Second }
    requires room { w.old.calls + writes < 2 ^ 64 }
    ensures sends { HasCleanDisk (shown S.Store tables.new)
        → SendsNoRoom close result writes (sink (W.contents w.old.inner) w.old)
        (sink (W.contents w.new.inner) w.new)
        ⊎ SendsFile S.Store file.now close result writes tables.old
        (sink (W.contents w.old.inner) w.old) (sink (W.contents w.new.inner) w.new) }
    ensures some { SendsSome result writes (sink (W.contents w.old.inner) w.old)
        (sink (W.contents w.new.inner) w.new) }
    ensures begun { result ≡ Err IndexFault.Store → w.old.calls < w.new.calls }
    ensures ends { result ≡ Err IndexFault.Store
        → EndsItself S.Store file.now.crate_id (held tables.new) }
    ensures stopped { is_stopped tables.old ≡ true
        → SendsNoRoom close result writes (sink (W.contents w.old.inner) w.old)
        (sink (W.contents w.new.inner) w.new) }
    ensures left { IsLeft S.Store tables.old tables.new }
{
    if tables.is_stopped() {
        return send_no_room(w, close, writes);
    }
    let head = reply_head(StatusCode::OK, Kind::Text, None, file.length, close);
    let before = w.calls();
    let sent = send_over(tables, file.crate_id, head.as_bytes(), w, writes);
    if is_unsent(&sent, before, w.calls()) {
        return send_no_room(w, close, writes);
    }
    sent
}

/// The text of the file, in memory. The tables are only read.
pub fn read_file<S: Alter>(
    alloc: Global,
    tables: &mut Tables<S>,
    file: &FoundFile,
) -> Result<Vec<u8>, IndexFault>
    requires ours { AreOurs S.Store tables.old }
    requires second { edition_in tables.old ≡ SchemaVersion.Second }
    ensures reads { HasCleanDisk (shown S.Store tables.new) → IfOk result
        (λ text. IsFileText S.Store file.now tables.old text.items) }
    ensures left { IsLeft S.Store tables.old tables.new }
{
    if tables.is_stopped() {
        return Err(IndexFault::Store);
    }
    let mut text = Counted::new(Vec::new(alloc));
    send_over(tables, file.crate_id, b"", &mut text, u64::MAX)?;
    Ok(text.into_inner())
}
