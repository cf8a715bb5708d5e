//! The body that lists the crates a search finds.

ghost use Rattle.std.specs.Prelude.{◌≡◌, ℕ, [], ◌∷◌, ◌++◌, IfOk, OnErr, OnOk};
ghost use Rattle.std.specs.Option.{option_copied};
ghost use Rattle.serde_json.specs.Data.{number, object, unsigned};
ghost use Rattle.serde_json.specs.View.{view};
ghost use Rattle.reg_api_replies.specs.Bodies.{found_body, found_data, hit_data, total_data};
ghost use Rattle.reg_api_replies.specs.Entries.{AreHits, found_of, hit_of, hits_in};

use reg_line::values::{put_text, put_text_or_null};
use serde_json::{Map, Value, put};
use std::alloc::{AllocError, Global};
use std::marker::Model;

/// The crates that a search finds, one after another.
#[derive(Drop)]
pub struct FoundBody {
    crates: Vec<Value>,
}

impl Model for FoundBody {
    ghost use Rattle.std.specs.Prelude.{List};
    ghost use Rattle.reg_model.specs.Events.{Hit};

    ghost Value = { List Hit };

    ghost use Rattle.reg_api_replies.specs.Entries.{AreHits, hits_in};

    ghost view = { λ b. hits_in b.crates.items };

    ghost invariant = { λ b. AreHits b.crates.items };
}

fn hit_value(
    alloc: Global,
    name: &str,
    version: &str,
    description: Option<&str>,
) -> Result<Value, AllocError>
    ensures { let hit = hit_of name.now version.now (option_copied description.entry) in
        IfOk result (λ v. view v ≡ hit_data hit) }
{
    let mut hit = Map::new(alloc);
    put_text_or_null(&mut hit, alloc, "description", description)?;
    put_text(&mut hit, alloc, "max_version", version)?;
    put_text(&mut hit, alloc, "name", name)?;
    Ok(Value::Object(hit))
}

fn total_value(alloc: Global, total: u64) -> Result<Value, AllocError>
    ensures { IfOk result (λ v. view v ≡ total_data total) }
{
    let mut meta = Map::new(alloc);
    put(&mut meta, alloc, "total", Value::from(total))?;
    Ok(Value::Object(meta))
}

fn found_value(alloc: Global, crates: Vec<Value>, total: u64) -> Result<Value, AllocError>
    requires { AreHits crates.items }
    ensures { IfOk result (λ v. view v ≡ found_data (found_of total (hits_in crates.items))) }
{
    let mut body = Map::new(alloc);
    put(&mut body, alloc, "crates", Value::Array(crates))?;
    put(&mut body, alloc, "meta", total_value(alloc, total)?)?;
    Ok(Value::Object(body))
}

impl FoundBody {
    /// Begins a body with no crates.
    pub fn new(alloc: Global) -> FoundBody
        ensures { result ≡ [] }
    {
        FoundBody {
            crates: Vec::new(alloc),
        }
    }

    /// Adds a crate after those already there: its name, its highest version, and that version's
    /// description.
    pub fn push(
        &mut self,
        name: &str,
        version: &str,
        description: Option<&str>,
    ) -> Result<(), AllocError>
        ensures ok { let hit = hit_of name.now version.now (option_copied description.entry) in
            OnOk result (self.new ≡ self.old ++ hit ∷ []) }
        ensures err { OnErr result (self.new ≡ self.old) }
    {
        let alloc = *self.crates.allocator();
        let hit = hit_value(alloc, name, version, description)?;
        self.crates.push(hit)?;
        Ok(())
    }

    /// Returns the body; `total` is how many crates match.
    pub fn finish(self, total: u64) -> Result<Vec<u8>, AllocError>
        ensures { IfOk result (λ v. v.items ≡ found_body (found_of total self)) }
    {
        let alloc = *self.crates.allocator();
        found_value(alloc, self.crates, total)?.to_vec(alloc)
    }
}
