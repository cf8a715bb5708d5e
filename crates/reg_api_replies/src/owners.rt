//! The body that lists a crate's owners.

ghost use Rattle.std.specs.Prelude.{◌≡◌, [], ◌∷◌, ◌++◌, IfOk, OnErr, OnOk};
ghost use Rattle.std.specs.Option.{option_copied};
ghost use Rattle.serde_json.specs.View.{view};
ghost use Rattle.reg_api_replies.specs.Bodies.{owner_data, owners_body, owners_data};
ghost use Rattle.reg_api_replies.specs.Entries.{AreOwners, owner_of, owners_in};

use reg_line::values::{put_text, put_text_or_null};
use serde_json::{Map, Value, put};
use std::alloc::{AllocError, Global};
use std::marker::Model;

/// The owners of a crate, one after another.
#[derive(Drop)]
pub struct OwnersBody {
    users: Vec<Value>,
}

impl Model for OwnersBody {
    ghost use Rattle.std.specs.Prelude.{List};
    ghost use Rattle.reg_model.specs.Events.{OwnerEntry};

    ghost Value = { List OwnerEntry };

    ghost use Rattle.reg_api_replies.specs.Entries.{AreOwners, owners_in};

    ghost view = { λ b. owners_in b.users.items };

    ghost invariant = { λ b. AreOwners b.users.items };
}

fn owner_value(alloc: Global, id: u32, login: &str, name: Option<&str>) -> Result<Value, AllocError>
    ensures { IfOk result
        (λ v. view v ≡ owner_data (owner_of id login.now (option_copied name.entry))) }
{
    let mut owner = Map::new(alloc);
    put(&mut owner, alloc, "id", Value::from(id))?;
    put_text(&mut owner, alloc, "login", login)?;
    put_text_or_null(&mut owner, alloc, "name", name)?;
    Ok(Value::Object(owner))
}

fn owners_value(alloc: Global, users: Vec<Value>) -> Result<Value, AllocError>
    requires { AreOwners users.items }
    ensures { IfOk result (λ v. view v ≡ owners_data (owners_in users.items)) }
{
    let mut body = Map::new(alloc);
    put(&mut body, alloc, "users", Value::Array(users))?;
    Ok(Value::Object(body))
}

impl OwnersBody {
    /// Begins a body with no owners.
    pub fn new(alloc: Global) -> OwnersBody
        ensures { result ≡ [] }
    {
        OwnersBody {
            users: Vec::new(alloc),
        }
    }

    /// Adds an owner after those already there.
    pub fn push(&mut self, id: u32, login: &str, name: Option<&str>) -> Result<(), AllocError>
        ensures ok { OnOk result (self.new
            ≡ self.old ++ owner_of id login.now (option_copied name.entry) ∷ []) }
        ensures err { OnErr result (self.new ≡ self.old) }
    {
        let alloc = *self.users.allocator();
        let owner = owner_value(alloc, id, login, name)?;
        self.users.push(owner)?;
        Ok(())
    }

    /// Returns the body.
    pub fn finish(self) -> Result<Vec<u8>, AllocError>
        ensures { IfOk result (λ v. v.items ≡ owners_body self) }
    {
        let alloc = *self.users.allocator();
        owners_value(alloc, self.users)?.to_vec(alloc)
    }
}
