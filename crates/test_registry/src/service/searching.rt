//! Searches: what they find, in which version, and who finds it.

use crate::service::script::play;

#[test]
fn queries(rt: HostRuntime) {
    // In small letters and with `_` for `-`.
    let script = r#"given two-accounts
ada release Zed 0.1.0 -> Json
     {"warnings":{"invalid_badges":[],"invalid_categories":[],"other":[]}}
ada release acme-net 1.0.0 -> Json
     {"warnings":{"invalid_badges":[],"invalid_categories":[],"other":[]}}
ada search q=E_N -> Json {"crates":[{"description":null,"max_version":"1.0.0","name":"acme-net"}],
    "meta":{"total":1}}
ada search q=acme-nets -> Json {"crates":[],"meta":{"total":0}}
ada search q=é -> Json {"crates":[],"meta":{"total":0}}"#;
    play(&rt, script);
}

#[test]
fn description_of_the_highest_version(rt: HostRuntime) {
    let script = r#"given two-accounts
ada|publish|{"name":"a","vers":"0.1.0","description":"The first"} -> Json
     {"warnings":{"invalid_badges":[],"invalid_categories":[],"other":[]}}
ada search q=a -> Json {"crates":[{"description":"The first","max_version":"0.1.0","name":"a"}],
    "meta":{"total":1}}
ada publish {"name":"a","vers":"0.2.0","description":""} -> Json
     {"warnings":{"invalid_badges":[],"invalid_categories":[],"other":[]}}
ada search q=a -> Json {"crates":[{"description":"","max_version":"0.2.0","name":"a"}],
    "meta":{"total":1}}
ada release a 0.10.0 -> Json
     {"warnings":{"invalid_badges":[],"invalid_categories":[],"other":[]}}
ada search q=a -> Json {"crates":[{"description":null,"max_version":"0.10.0","name":"a"}],
    "meta":{"total":1}}
ada yank a 0.10.0 -> Json {"ok":true}
ada yank a 0.2.0 -> Json {"ok":true}
ada search q=a -> Json {"crates":[{"description":"The first","max_version":"0.1.0","name":"a"}],
    "meta":{"total":1}}
ada yank a 0.1.0 -> Json {"ok":true}
ada search q=a -> Json {"crates":[{"description":null,"max_version":"0.10.0","name":"a"}],
    "meta":{"total":1}}"#;
    play(&rt, script);
}

#[test]
fn search_among_restricted_crates(rt: HostRuntime) {
    // A stranger's total is one less.
    let script = r#"given two-accounts-and-a
user-add carol -> done
token-add carol yank - third -> 3
ada release b 0.1.0 -> Json
     {"warnings":{"invalid_badges":[],"invalid_categories":[],"other":[]}}
bob search per_page=10 -> Json {"crates":[{"description":null,"max_version":"0.1.0","name":"a"},
    {"description":null,"max_version":"0.1.0","name":"b"}],"meta":{"total":2}}
crate-restrict a -> done
ada search per_page=10 -> Json {"crates":[{"description":null,"max_version":"0.1.0","name":"a"},
    {"description":null,"max_version":"0.1.0","name":"b"}],"meta":{"total":2}}
bob search per_page=10 -> Json {"crates":[{"description":null,"max_version":"0.1.0","name":"b"}],
    "meta":{"total":1}}
third search per_page=10 -> Json {"crates":[{"description":null,"max_version":"0.1.0","name":"b"}],
    "meta":{"total":1}}
bob search q=a -> Json {"crates":[],"meta":{"total":0}}
bob search per_page=1 -> Json {"crates":[{"description":null,"max_version":"0.1.0","name":"b"}],
    "meta":{"total":1}}
reader-add a bob -> done
bob search per_page=10 -> Json {"crates":[{"description":null,"max_version":"0.1.0","name":"a"},
    {"description":null,"max_version":"0.1.0","name":"b"}],"meta":{"total":2}}
third search per_page=10 -> Json {"crates":[{"description":null,"max_version":"0.1.0","name":"b"}],
    "meta":{"total":1}}
reader-remove a bob -> done
bob search q=a -> Json {"crates":[],"meta":{"total":0}}
crate-open a -> done
bob search q=a -> Json {"crates":[{"description":null,"max_version":"0.1.0","name":"a"}],
    "meta":{"total":1}}
third search q=a -> Json {"crates":[{"description":null,"max_version":"0.1.0","name":"a"}],
    "meta":{"total":1}}"#;
    play(&rt, script);
}
