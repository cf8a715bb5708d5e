//! The registries of the worked examples.

/// The base of each registry.
pub const BASE: &str = "http://127.0.0.1:8080";

/// The registry of *two accounts*: ada's token has all endpoints, and bob's has two.
const TWO_ACCOUNTS: &str = "user-add ada Ada -> done
user-add bob -> done
token-add ada publish-new,publish-update,yank,change-owners - ada -> 1
token-add bob publish-update,yank - bob -> 2
";

/// The registry of *two accounts and a*: that of *two accounts* after ada published `a`.
pub const TWO_ACCOUNTS_AND_A: &str = r#"user-add ada Ada -> done
user-add bob -> done
token-add ada publish-new,publish-update,yank,change-owners - ada -> 1
token-add bob publish-update,yank - bob -> 2
ada release a 0.1.0 -> Json {"warnings":{"invalid_badges":[],"invalid_categories":[],"other":[]}}
"#;

/// What a first line says that there is: the lines that make it.
pub fn setup_of(first: &str) -> &'static str {
    if first.starts_with("given two-accounts-and-a") {
        TWO_ACCOUNTS_AND_A
    } else if first.starts_with("given two-accounts") {
        TWO_ACCOUNTS
    } else {
        ""
    }
}
