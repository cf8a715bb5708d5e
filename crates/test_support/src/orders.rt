//! Words of scripts that are commands of the administrator, for the tests of the rules and of the
//! service.
//!
//! `owner-add a bob` is `AdminCommand::OwnerAdd("a", "bob")`.

ghost use Rattle.std.specs.Prelude.{IfSome};
ghost use Rattle.reg_model.specs.Events.Event.{Order};
ghost use Rattle.reg_model.specs.Steps.{IsFit};
ghost use Rattle.reg_policy.specs.Events.{command_of as order_of};

use reg_policy::AdminCommand;
use std::alloc::{AllocError, Global};

/// The report that a word asks for.
fn report(word: &str) -> Option<AdminCommand<'_>>
    ensures { IfSome result (λ c. IsFit (Order (order_of c))) }
{
    Some(match word {
        "users" => AdminCommand::Users,
        "tokens" => AdminCommand::Tokens,
        "crates" => AdminCommand::Crates,
        _ => return None,
    })
}

/// A command about an account or a token.
fn about_account<'a>(word: &str, login: &'a str) -> Option<AdminCommand<'a>>
    ensures { IfSome result (λ c. IsFit (Order (order_of c))) }
{
    Some(match word {
        "user-add" => AdminCommand::UserAdd(login, None),
        "user-disable" => AdminCommand::UserDisable(login),
        "user-enable" => AdminCommand::UserEnable(login),
        "token-revoke" => AdminCommand::TokenRevoke(login.parse().ok()?),
        _ => return None,
    })
}

/// A command about a crate.
fn about_crate<'a>(word: &str, name: &'a str) -> Option<AdminCommand<'a>>
    ensures { IfSome result (λ c. IsFit (Order (order_of c))) }
{
    Some(match word {
        "reserve" => AdminCommand::Reserve(name),
        "unreserve" => AdminCommand::Unreserve(name),
        "access" => AdminCommand::Access(name),
        "crate-restrict" => AdminCommand::CrateRestrict(name),
        "crate-open" => AdminCommand::CrateOpen(name),
        _ => return None,
    })
}

/// A command about two names.
fn about_two<'a>(word: &str, one: &'a str, other: &'a str) -> Option<AdminCommand<'a>>
    ensures { IfSome result (λ c. IsFit (Order (order_of c))) }
{
    Some(match word {
        "user-add" => AdminCommand::UserAdd(one, Some(other)),
        "owner-add" => AdminCommand::OwnerAdd(one, other),
        "reader-add" => AdminCommand::ReaderAdd(one, other),
        "reader-remove" => AdminCommand::ReaderRemove(one, other),
        _ => return None,
    })
}

/// The command that the words are; none where they are another, or none.
pub fn command_of<'a>(words: &[&'a str]) -> Option<AdminCommand<'a>>
    ensures { IfSome result (λ c. IsFit (Order (order_of c))) }
{
    match words {
        [word] => report(word),
        [word, name] => about_account(word, name).or(about_crate(word, name)),
        [word, one, other] => about_two(word, one, other),
        _ => None,
    }
}

/// The parts of a list that commas separate; `-` is the empty list.
pub fn parts<'a>(alloc: Global, list: &'a str) -> Result<Vec<&'a str>, AllocError> {
    if list == "-" {
        return Ok(Vec::new(alloc));
    }
    list.split(',').collect(alloc)
}
