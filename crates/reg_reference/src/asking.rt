//! What the registry over vectors does for an allowed request.

ghost use Rattle.std.specs.Prelude.{◌≡◌, IfOk, OnErr, OnOk, None, Ok as to_ok, is_some, map, string_bytes, true};
ghost use Rattle.std.specs.Option.{option_map};
ghost use Rattle.reg_names.specs.Names.{name_at, name_of};
ghost use Rattle.reg_model.specs.Crates.{version as version_in, viewer};
ghost use Rattle.reg_model.specs.Refusals.{judged};
ghost use Rattle.reg_model.specs.Effects.{account_of, done, served};
ghost use Rattle.reg_model.specs.Events.{action_of as action_asked};
ghost use Rattle.reg_model.specs.Events.Answer.{Granted as to_granted};
ghost use Rattle.reg_model.specs.Events.Asked.{Index as to_index, Download as to_download, ListOwners as to_list, Publish as to_publish, Yank as to_yank, Unyank as to_unyank, AddOwners as to_add, RemoveOwners as to_remove};
ghost use Rattle.reg_model.specs.Events.Event.{Ask as to_ask};
ghost use Rattle.reg_policy.specs.Events.{answer_of, asked_of, decision_alone, publication_of as new_publication};
ghost use Rattle.reg_reference.specs.Plain.{Does, PlainStep, limits_of, registry_of};

use crate::plain::PlainRegistry;
use reg_line::file;
use reg_model::Rule;
use reg_names::{CrateName, canon, name_of_path, parse_name};
use reg_policy::{Answer, Asked, Decision, NewPublication, action_of};
use reg_reference_lists::publication_from;
use std::alloc::AllocError;

impl PlainRegistry {
    /// Answers a request.
    pub(crate) fn ask(&mut self, digest: Option<&[u8; 32]>, asked: &Asked) -> Answer
        ensures step { PlainStep (limits_of self.old) (registry_of self.old)
            (to_ask (option_map (λ d. d.now) digest.entry) (asked_of asked.now)) (answer_of result)
            (registry_of self.new) }
        ensures limits { limits_of self.new ≡ limits_of self.old }
    {
        let Some(digest) = digest else {
            return Answer::Denied(Rule::A1);
        };
        match self.decision(digest, &action_of(asked)) {
            Ok(Decision::Allowed) => match self.serve(digest, asked) {
                Ok(answer) => answer,
                Err(_) => Answer::Denied(Rule::S1),
            },
            Ok(Decision::Denied(rule)) => Answer::Denied(rule),
            Err(_) => Answer::Denied(Rule::S1),
        }
    }

    /// Does what is asked for, which the rules on the state allow.
    fn serve(&mut self, digest: &[u8; 32], asked: &Asked) -> Result<Answer, AllocError>
        requires allowed { judged (limits_of self.old) (registry_of self.old) digest.now
            (action_asked (asked_of asked.now)) ≡ None }
        ensures answer { IfOk result (λ a. answer_of a ≡ decision_alone
            (served (registry_of self.old) (viewer (registry_of self.old) digest.now)
            (asked_of asked.now))) }
        ensures state { OnOk result (registry_of self.new ≡ done (registry_of self.old)
            (account_of (registry_of self.old) digest.now) (asked_of asked.now)) }
        ensures err { OnErr result (registry_of self.new ≡ registry_of self.old) }
        ensures limits { limits_of self.new ≡ limits_of self.old }
    {
        match asked {
            Asked::Malformed(rule) => Ok(Answer::Denied(*rule)),
            Asked::Read(_) => Ok(Answer::Granted),
            Asked::Index(path) => self.index_file(path),
            Asked::Download(name, version) => self.archive(name, version),
            Asked::ListOwners(name) => self.owner_list(name),
            Asked::Publish(new) => self.publish(digest, new),
            Asked::Yank(name, version) => self.yank(name, version),
            Asked::Unyank(name, version) => Ok(self.unyank(name, version)),
            Asked::AddOwners(name, logins) => self.add_owners(name, logins),
            Asked::RemoveOwners(name, logins) => self.remove_owners(name, logins),
        }
    }

    fn index_file(&self, path: &str) -> Result<Answer, AllocError>
        requires named { is_some (name_at path.now) ≡ true }
        ensures { IfOk result (λ a. answer_of a ≡ served (registry_of self.now) None
            (to_index path.now)) }
    {
        let name = name_of_path(path).unwrap();
        let entries = self.publications.entries(self.alloc, &name, &self.yanked)?;
        Ok(Answer::File(file(self.alloc, entries.as_slice())?))
    }

    fn archive(&self, name: &str, version: &str) -> Result<Answer, AllocError>
        requires named { is_some (name_of name.now) ≡ true }
        requires there { is_some (version_in (registry_of self.now) name.now version.now) ≡ true }
        ensures { IfOk result (λ a. answer_of a ≡ served (registry_of self.now) None
            (to_download name.now version.now)) }
    {
        let name = parse_name(name).unwrap();
        match self.publications.archive(&name, version) {
            Some(archive) => Ok(Answer::Archive(archive.to_vec(self.alloc)?)),
            None => Ok(Answer::Denied(Rule::A10)),
        }
    }

    fn owner_list(&self, name: &str) -> Result<Answer, AllocError>
        requires named { is_some (name_of name.now) ≡ true }
        ensures { IfOk result (λ a. answer_of a ≡ served (registry_of self.now) None
            (to_list name.now)) }
    {
        let name = parse_name(name).unwrap();
        let owners = self
            .accounts
            .owner_entries(self.alloc, &self.owners, &canon(&name))?;
        Ok(Answer::Owners(owners))
    }

    fn publish(&mut self, digest: &[u8; 32], new: &NewPublication) -> Result<Answer, AllocError>
        ensures answer { IfOk result (λ a. answer_of a ≡ to_granted) }
        ensures state { OnOk result (registry_of self.new ≡ done (registry_of self.old)
            (account_of (registry_of self.old) digest.now) (to_publish (new_publication new.now))) }
        ensures err { OnErr result (registry_of self.new ≡ registry_of self.old) }
        ensures limits { limits_of self.new ≡ limits_of self.old }
    {
        let account = self.account_of(digest);
        let publication = publication_from(self.alloc, new)?;
        if self.publications.exists(&new.name) {
            self.publications.add(publication)?;
        } else {
            self.publications
                .add_first(publication, &mut self.owners, account)?;
        }
        Ok(Answer::Granted)
    }

    fn yank(&mut self, name: &str, version: &str) -> Result<Answer, AllocError>
        requires named { is_some (name_of name.now) ≡ true }
        ensures { Does self.old self.new (to_yank name.now version.now) result }
    {
        let name = parse_name(name).unwrap();
        self.yanked.insert(self.alloc, &name, version)?;
        Ok(Answer::Granted)
    }

    fn unyank(&mut self, name: &str, version: &str) -> Answer
        requires named { is_some (name_of name.now) ≡ true }
        ensures { Does self.old self.new (to_unyank name.now version.now) (to_ok result) }
    {
        let name = parse_name(name).unwrap();
        self.yanked.remove(&name, version);
        Answer::Granted
    }

    fn add_owners(&mut self, name: &str, logins: &[String]) -> Result<Answer, AllocError>
        requires named { is_some (name_of name.now) ≡ true }
        ensures { Does self.old self.new (to_add name.now (map string_bytes logins.now)) result }
    {
        let name = parse_name(name).unwrap();
        let ids = self.accounts.ids_of(self.alloc, logins)?;
        self.owners.insert_all(self.alloc, &name, ids.as_slice())?;
        Ok(Answer::Granted)
    }

    fn remove_owners(&mut self, name: &str, logins: &[String]) -> Result<Answer, AllocError>
        requires named { is_some (name_of name.now) ≡ true }
        ensures { Does self.old self.new (to_remove name.now (map string_bytes logins.now)) result }
    {
        let name = parse_name(name).unwrap();
        let ids = self.accounts.ids_of(self.alloc, logins)?;
        self.owners.remove_all(&name, ids.as_slice());
        Ok(Answer::Granted)
    }
}
