//! Logins of accounts.

ghost use Rattle.std.specs.Prelude.{◌≡◌, ◌≤◌, List, ℕ, length, true};
ghost use Rattle.std.specs.List.{list_all};
ghost use Rattle.reg_names.specs.Logins.{is_login, is_login_byte, login_of};

use arrayvec::ArrayString;
use std::marker::Model;

/// An account's login: 1 to 32 ASCII lower-case letters, digits, `-` and `_`, the first a letter.
#[derive(Drop)]
pub struct Login(ArrayString<32>);

impl Model for Login {
    ghost Value = { List ℕ };

    ghost view = { λ n. n.0.bytes };

    ghost invariant = { λ n. is_login n.0.bytes ≡ true };
}

fn is_login_byte(b: u8) -> bool
    ensures { result ≡ is_login_byte b }
{
    b.is_ascii_lowercase() || b.is_ascii_digit() || b == b'-' || b == b'_'
}

fn all_login_bytes(bytes: &[u8]) -> bool
    ensures { result ≡ list_all is_login_byte bytes.now }
{
    bytes.iter().all(|b| is_login_byte(*b))
}

fn is_login(text: &str) -> bool
    ensures { result ≡ is_login text.now }
{
    let bytes = text.as_bytes();
    if bytes.is_empty() || bytes.len() > 32 {
        return false;
    }
    bytes[0].is_ascii_lowercase() && all_login_bytes(bytes)
}

/// Accepts a text exactly when it is a login.
pub fn parse_login(text: &str) -> Option<Login>
    ensures { result ≡ login_of text.now }
{
    if !is_login(text) {
        return None;
    }
    match ArrayString::from(text) {
        Ok(text) => Some(Login(text)),
        Err(_) => None,
    }
}

impl Login {
    /// The login's text.
    pub fn as_str(&self) -> &str
        ensures value { result.now ≡ self.now }
        ensures login { is_login result.now ≡ true }
        ensures fits { length result.now ≤ 32 }
    {
        self.0.as_str()
    }

    /// A copy of the login.
    pub fn copy(&self) -> Login
        ensures { result ≡ self.now }
    {
        Login(self.0)
    }
}
