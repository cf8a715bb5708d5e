//! The lines of a setup file, each an administrator's command.

ghost use Rattle.std.specs.Prelude.{◌≡◌, IfErr, IfOk, false, map};
ghost use Rattle.std.specs.List.{list_any};
ghost use Rattle.reg_cli_args.specs.Dashes.{is_dashed};
ghost use Rattle.reg_cli_run.specs.LineOrders.{IsUnread, line_order, words_in};
ghost use Rattle.reg_cli_run.specs.Lines.{lines_in};
ghost use Rattle.reg_cli_run.specs.Setups.{ObeysOrder, SetsUpTraced};

use crate::ordering::{OrderFault, obey_order};
use reg_cli_args::{is_dashed, read_line};
use reg_http::Trail;
use reg_model::laws::telling_law;
use reg_policy::AdminReply;
use reg_service::Registry;
use reg_service::laws::history_law;
use sqlite::Alter;
use std::alloc::{AllocError, Global};
use std::io::Write;

/// The lines of a text; the last may lack its line feed.
fn lines_of<'a>(alloc: Global, text: &'a str) -> Result<Vec<&'a str>, AllocError>
    ensures { IfOk result (λ lines. map (λ l. l.now) lines.items ≡ lines_in text.now) }
{
    let mut lines: Vec<&'a str> = text.split('\n').collect(alloc)?;
    let Some(last) = lines.pop() else {
        return Ok(lines);
    };
    if last.is_empty() {
        return Ok(lines);
    }
    lines.push(last)?;
    Ok(lines)
}

pub(crate) fn have_dashed(words: &[&str]) -> bool
    ensures { result ≡ list_any (λ w. is_dashed w.now) words.now }
{
    words.iter().any(|word| is_dashed(word))
}

/// The words of a line. No value begins with `-`.
fn split_words<'a>(alloc: Global, line: &'a str) -> Result<Vec<&'a str>, OrderFault>
    ensures words { IfOk result (λ words. map (λ w. w.now) words.items ≡ words_in line.now) }
    ensures no_dash { IfOk result (λ _. list_any is_dashed (words_in line.now) ≡ false) }
    ensures fails { IfErr result (IsUnread (line_order line.now)) }
{
    let words: Vec<&'a str> = line.split(' ').collect(alloc)?;
    if have_dashed(&words) {
        return Err(OrderFault::Unreadable);
    }
    Ok(words)
}

/// Runs the command of one line.
fn obey_line<T: Write, S: Alter>(
    alloc: Global,
    registry: &mut Registry<S>,
    trail: &mut Trail<T>,
    line: &str,
) -> Result<AdminReply, OrderFault>
    ensures { ObeysOrder S.Store (line_order line.now) T.contents registry.old registry.new
        trail.old trail.new result }
{
    let words = split_words(alloc, line)?;
    let matches = read_line(alloc, &words)?;
    obey_order(alloc, registry, trail, &matches)
}

/// Runs the commands of a setup file, one after another, up to the first that is refused or
/// invalid, and writes a line for each change, after its commit.
pub fn setup_traced<T: Write, S: Alter>(
    alloc: Global,
    registry: &mut Registry<S>,
    setup: &str,
    trail: &mut Trail<T>,
) -> Result<(), OrderFault>
    ensures { SetsUpTraced S.Store (lines_in setup.now) registry.old registry.new
        T.contents trail.old trail.new result }
{
    history_law::<S>();
    telling_law();
    let lines = lines_of(alloc, setup)?;
    for line in &lines {
        obey_line(alloc, registry, trail, line)?;
    }
    Ok(())
}
