//! The lines of what commands change.

ghost use Rattle.std.specs.Prelude.{◌≡◌, ◌∷◌, [], IfOk, codes, map, string_bytes};
ghost use Rattle.std.specs.Option.{option_map};
ghost use Rattle.reg_model.specs.Reports.{with_commas};
ghost use Rattle.reg_model.specs.Trail.{line_of, name_words};

use reg_names::Pattern;
use reg_policy::WithCommas;
use reg_service_steps::line_of;
use std::alloc::{AllocError, Global};

fn unnamed_line(alloc: Global, login: &str) -> Result<String, AllocError>
    ensures { IfOk result (λ line. string_bytes line ≡ line_of (codes "-" ∷ codes "admin"
        ∷ codes "user-add" ∷ login.now ∷ [])) }
{
    line_of(alloc, &["-", "admin", "user-add", login])
}

fn named_line(alloc: Global, login: &str, name: &str) -> Result<String, AllocError>
    ensures { IfOk result (λ line. string_bytes line ≡ line_of (codes "-" ∷ codes "admin"
        ∷ codes "user-add" ∷ login.now ∷ codes "--name" ∷ name.now ∷ [])) }
{
    line_of(alloc, &["-", "admin", "user-add", login, "--name", name])
}

/// A new account.
pub(crate) fn new_user_line(
    alloc: Global,
    login: &str,
    name: Option<&str>,
) -> Result<String, AllocError>
    ensures { IfOk result (λ line. string_bytes line ≡ line_of (codes "-" ∷ codes "admin"
        ∷ codes "user-add" ∷ login.now ∷ name_words (option_map (λ n. n.now) name.entry))) }
{
    match name {
        Some(name) => named_line(alloc, login, name),
        None => unnamed_line(alloc, login),
    }
}

/// A new token, by its account's login, the words for its endpoints, and its patterns.
pub(crate) fn new_token_line(
    alloc: Global,
    login: &str,
    words: &[&str],
    patterns: &[Pattern],
) -> Result<String, AllocError>
    ensures { IfOk result (λ line. string_bytes line ≡ line_of (codes "-" ∷ codes "admin"
        ∷ codes "token-add" ∷ login.now ∷ codes "--endpoints"
        ∷ with_commas (map (λ w. w.now) words.now)
        ∷ codes "--patterns" ∷ with_commas patterns.now ∷ [])) }
{
    let mut line = String::new(alloc);
    writeln!(
        line,
        "- admin token-add {login} --endpoints {} --patterns {}",
        WithCommas(words),
        WithCommas(patterns)
    )?;
    Ok(line)
}
