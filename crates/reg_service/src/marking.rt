//! The mark of an opening, counted in one transaction that keeps nothing.

ghost use Rattle.std.specs.Prelude.{◌≡◌, ◌∷◌, [], true, codes, IfOk, IsErr, string_bytes};
ghost use Rattle.std.specs.Fmt.{decimal};
ghost use Rattle.reg_model.specs.Trail.{line_of};
ghost use Rattle.reg_tables.specs.Works.{is_stopped};
ghost use Rattle.reg_service.specs.Answered.{AreUpToDate};
ghost use Rattle.reg_service.specs.Looked.{AreCounted, IsMark, IsTrueOf, Looked};

use itoa::Buffer;
use reg_service_steps::line_of;
use reg_tables::{Counts, Result, Tables};
use sqlite::Alter;
use std::alloc::{AllocError, Global};

/// The mark of a registry that has so many of each.
fn mark_of(alloc: Global, counts: &Counts) -> Result<String, AllocError>
    ensures { IfOk result (λ line. string_bytes line ≡ line_of (codes "-" ∷ codes "opened"
        ∷ decimal counts.now.accounts ∷ decimal counts.now.tokens
        ∷ decimal counts.now.publications ∷ [])) }
{
    let mut accounts = Buffer::new();
    let mut tokens = Buffer::new();
    let mut publications = Buffer::new();
    let words = [
        "-",
        "opened",
        accounts.format(counts.accounts),
        tokens.format(counts.tokens),
        publications.format(counts.publications),
    ];
    line_of(alloc, &words)
}

/// How much the registry has that the tables hold.
fn count_in<S: Alter>(tables: &mut Tables<S>) -> Result<Counts>
    requires { AreUpToDate S.Store tables.old }
    ensures counted { IsTrueOf S.Store AreCounted result tables.old tables.new }
    ensures looked { Looked S.Store tables.old tables.new }
    ensures stopped { is_stopped tables.old ≡ true → IsErr result }
{
    let mut work = tables.work()?;
    work.counts()
}

/// The mark of the registry that the tables hold.
pub(crate) fn mark_in<S: Alter>(alloc: Global, tables: &mut Tables<S>) -> Result<String>
    requires { AreUpToDate S.Store tables.old }
    ensures marked { IsTrueOf S.Store IsMark result tables.old tables.new }
    ensures looked { Looked S.Store tables.old tables.new }
    ensures stopped { is_stopped tables.old ≡ true → IsErr result }
{
    let counts = count_in(tables)?;
    Ok(mark_of(alloc, &counts)?)
}
