//! Limits, as scripts write them.

use reg_body::Limits;

/// Sets the limit with this name. Another name leaves no room for an account.
fn limit(limits: &mut Limits, name: &str, number: u32) {
    match name {
        "archive" => limits.archive = number,
        "logins" => limits.logins = number,
        "patterns" => limits.patterns = number,
        "versions" => limits.versions = u64::from(number),
        "accounts" => limits.accounts = u64::from(number),
        "tokens" => limits.tokens = u64::from(number),
        "crates" => limits.crates = u64::from(number),
        _ => limits.accounts = 0,
    }
}

/// The standard limits with those set that the words name, as `crates=1`.
pub fn limits_of(words: &str) -> Limits {
    let mut limits = Limits::STANDARD;
    for word in words.split(' ') {
        if let Some((name, number)) = word.split_once('=') {
            limit(&mut limits, name, number.parse().unwrap_or(0));
        }
    }
    limits
}
