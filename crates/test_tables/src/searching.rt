//! A search as a line of a script: `search VIEWER MOST [QUERY]`.

ghost use Rattle.reg_tables.specs.Works.{AreOurs};

use crate::fault::Fault;
use crate::records::{Shown, list};
use reg_search::{Found, Hit, search};
use reg_tables::{SchemaVersion, Tables};
use sqlite::Alter;
use std::alloc::{AllocError, Global};

impl Shown for Hit {
    fn show(&self, alloc: Global) -> Result<String, AllocError> {
        let description = self.description.as_deref().unwrap_or("-");
        format!(in alloc; "{}:{}:{description};", self.name, self.max_version)
    }
}

fn found_text(alloc: Global, found: &Found) -> Result<String, AllocError> {
    let crates = list(alloc, &found.crates)?;
    format!(in alloc; "{} {crates}", found.total)
}

/// The viewer, how many crates at most, and the query between its brackets.
fn query_of(words: &str) -> Option<(u32, u32, &str)> {
    let (viewer, rest) = words.split_once(" ")?;
    let (most, query) = rest.split_once(" ")?;
    let query = query.strip_prefix("[")?.strip_suffix("]")?;
    Some((viewer.parse().ok()?, most.parse().ok()?, query))
}

/// What a search finds, as a text: how many crates, and each that is shown.
pub fn search_text<S: Alter>(
    alloc: Global,
    tables: &mut Tables<S>,
    words: &str,
) -> Result<String, Fault>
    requires { AreOurs S.Store tables.old }
    ensures { AreOurs S.Store tables.new }
{
    let Some((viewer, most, query)) = query_of(words) else {
        return Ok(String::from_str(alloc, "no such search")?);
    };
    match tables.edition() {
        SchemaVersion::First => Err(Fault::NotMade),
        SchemaVersion::Second => {
            let found = search(alloc, tables, viewer, query, most)?;
            Ok(found_text(alloc, &found)?)
        }
    }
}
