//! Each call at its greatest: the longest words, long lists, and each of many versions.

use crate::service::opening::play as play_over_a_store;
use crate::service::script::play;

/// A name and a pattern of 64 characters, a login of 32, a name of an account of 100, and 64
/// patterns.
const LONGEST_WORDS: &str = r#"given two-accounts
user-add|[[1..16|u-]]|[[1..20|Name ]] -> done
token-add [[1..16|u-]] publish-new,publish-update,yank,change-owners
     [[1..26|Ab]]-[[1..11|y]]*[[1..63|,p#]] third -> 3
third release [[1..26|Ab]]-[[1..11|y]]
     18446744073709551615.0.0-[[1..60|9999999999.]]rc+[[1..40|b#.]]z abc -> Json
     {"warnings":{"invalid_badges":[],"invalid_categories":[],"other":[]}}
third index ab/ab/[[1..26|ab]]-[[1..11|y]] -> Text(1073)
     {"cksum":"ba7816bf8f01cfea414140de5dae2223b00361a396177a9cb410ff61f20015ad",
    "deps":[],"features":{},"links":null,"name":"[[1..26|Ab]]-[[1..11|y]]","rust_version":null,
    "vers":"18446744073709551615.0.0-[[1..60|9999999999.]]rc+[[1..40|b#.]]z","yanked":false}<0a>
third download [[1..26|ab]]-[[1..11|y]]
     18446744073709551615.0.0-[[1..60|9999999999.]]rc+[[1..40|b#.]]z -> Archive(3) abc
third search q=[[1..26|Ab]]-[[1..11|y]] -> Json {"crates":[{"description":null,
    "max_version":"18446744073709551615.0.0-[[1..60|9999999999.]]rc+[[1..40|b#.]]z",
    "name":"[[1..26|Ab]]-[[1..11|y]]"}],"meta":{"total":1}}
third search q=[[1..26|Ab]]-[[1..11|y]]- -> Json {"crates":[],"meta":{"total":0}}
third yank [[1..26|Ab]]-[[1..11|y]]
     18446744073709551615.0.0-[[1..60|9999999999.]]rc+[[1..40|b#.]]z -> Json {"ok":true}
third unyank [[1..26|Ab]]-[[1..11|y]]
     18446744073709551615.0.0-[[1..60|9999999999.]]rc+[[1..40|b#.]]z -> Json {"ok":true}
third add-owners [[1..26|Ab]]-[[1..11|y]] {"users":["ada"]} -> Json
     {"msg":"owners added","ok":true}
third owners [[1..26|Ab]]-[[1..11|y]] -> Json
     {"users":[{"id":1,"login":"ada","name":"Ada"},
    {"id":3,"login":"[[1..16|u-]]","name":"[[1..20|Name ]]"}]}
third remove-owners [[1..26|Ab]]-[[1..11|y]] {"users":["ada"]} -> Json
     {"msg":"owners removed","ok":true}
owner-add [[1..26|Ab]]-[[1..11|y]] bob -> done
reader-add [[1..26|Ab]]-[[1..11|y]] [[1..16|u-]] -> done
crate-restrict [[1..26|Ab]]-[[1..11|y]] -> done
access [[1..26|Ab]]-[[1..11|y]] ->        2  publish-update  bob<0a>
           2  yank            bob<0a>
           3  publish-update  [[1..16|u-]]<0a>
           3  yank            [[1..16|u-]]<0a>
           3  change-owners   [[1..16|u-]]<0a>
           -  read            [[1..16|u-]]<0a>
crate-open [[1..26|Ab]]-[[1..11|y]] -> done
reader-remove [[1..26|Ab]]-[[1..11|y]] [[1..16|u-]] -> done
crates -> [[1..26|Ab]]-[[1..11|y]]       1
      18446744073709551615.0.0-[[1..60|9999999999.]]rc+[[1..40|b#.]]z<0a>
user-disable [[1..16|u-]] -> done
third config -> A4
user-enable [[1..16|u-]] -> done
token-revoke 4294967295 -> G6
token-revoke 3 -> done
third config -> A3
users ->        1  ada                               enabled   Ada<0a>
           2  bob                               enabled   -<0a>
           3  [[1..16|u-]]  enabled   [[1..20|Name ]]<0a>
tokens ->        1  ada                               live     publish-new,publish-update,
    yank,change-owners  *<0a>
           2  bob                               live     publish-update,yank  *<0a>
           3  [[1..16|u-]]  revoked  publish-new,publish-update,
    yank,change-owners  [[1..26|Ab]]-[[1..11|y]]*[[1..63|,p#]]<0a>
reserve [[1..64|r]] -> done
ada release [[1..64|R]] 0.1.0 -> N2
unreserve [[1..64|R]] -> done
reserve [[1..65|r]] -> G4
ada search per_page=[[1..400|9]] -> Json {"crates":[{"description":null,
    "max_version":"18446744073709551615.0.0-[[1..60|9999999999.]]rc+[[1..40|b#.]]z",
    "name":"[[1..26|Ab]]-[[1..11|y]]"}],"meta":{"total":1}}
ada search q=[[1..9999|a]] -> Json {"crates":[],"meta":{"total":0}}"#;

#[test]
fn the_longest_words(rt: HostRuntime) {
    play(&rt, LONGEST_WORDS);
}

#[test]
fn many_owners_and_readers(rt: HostRuntime) {
    // 32 logins of a request, and one too many.
    let script = r#"given two-accounts-and-a
[[3..34|user-add user-# -> done
]]ada add-owners a {"users":["ada","user-34"[[3..33|,"user-#"]]]} -> O1
ada add-owners a {"users":["user-34"[[3..33|,"user-#"]]]} -> Json {"msg":"owners added","ok":true}
ada owners a -> Json {"users":[{"id":1,"login":"ada","name":"Ada"}
    [[3..34|,{"id":#,"login":"user-#","name":null}]]]}
[[3..34|token-add user-# yank - text-# -> #
text-# yank a 0.1.0 -> Json {"ok":true}
text-# unyank a 0.1.0 -> Json {"ok":true}
reader-add a user-# -> done
]]crate-restrict a -> done
access a ->        1  publish-update  ada<0a>
           1  yank            ada<0a>
           1  change-owners   ada<0a>
    [[3..9|       #  yank            user-#<0a>]]
    [[10..34|      #  yank            user-#<0a>]]
    [[3..34|       -  read            user-#<0a>]]
owner-add a bob -> done
ada remove-owners a {"users":["bob","carol"[[3..33|,"user-#"]]]} -> O1
ada remove-owners a {"users":["bob"[[3..33|,"user-#"]]]} -> Json {"msg":"owners removed","ok":true}
ada owners a -> Json {"users":[{"id":1,"login":"ada","name":"Ada"},
    {"id":34,"login":"user-34","name":null}]}
text-34 yank a 0.1.0 -> Json {"ok":true}
text-33 yank a 0.1.0 -> A9
users ->        1  ada                               enabled   Ada<0a>
           2  bob                               enabled   -<0a>
    [[3..9|       #  user-#                            enabled   -<0a>]]
    [[10..34|      #  user-#                           enabled   -<0a>]]
tokens ->        1  ada                               live     publish-new,publish-update,
    yank,change-owners  *<0a>
           2  bob                               live     publish-update,yank  *<0a>
    [[3..9|       #  user-#                            live     yank  *<0a>]]
    [[10..34|      #  user-#                           live     yank  *<0a>]]"#;
    play(&rt, script);
}

#[test]
fn each_of_many_versions(rt: HostRuntime) {
    let script = r#"given two-accounts
[[1..30|ada release a 0.#.0 -> Json
     {"warnings":{"invalid_badges":[],"invalid_categories":[],"other":[]}}
]][[1..30|ada yank a 0.#.0 -> Json {"ok":true}
]]ada search  -> Json {"crates":[{"description":null,"max_version":"0.30.0","name":"a"}],
    "meta":{"total":1}}
[[1..30|ada unyank a 0.#.0 -> Json {"ok":true}
ada search  -> Json {"crates":[{"description":null,"max_version":"0.#.0","name":"a"}],
    "meta":{"total":1}}
ada download a 0.#.0 -> Archive(0) 
]]ada index 1/a -> Text(5271)
     [[1..30|{"cksum":"e3b0c44298fc1c149afbf4c8996fb92427ae41e4649b934ca495991b7852b855",
    "deps":[],"features":{},"links":null,"name":"a","rust_version":null,
    "vers":"0.#.0","yanked":false}<0a>]]
crates -> a                                                                     30  0.30.0<0a>"#;
    play(&rt, script);
}

#[test]
fn many_crates_and_a_long_base(rt: HostRuntime) {
    let script = r#"given nothing
create http://[[1..2000|a]] -> done
user-add ada -> done
token-add ada publish-new,publish-update,yank,change-owners - ada -> 1
[[10..99|ada release c# 0.1.0 -> Json
     {"warnings":{"invalid_badges":[],"invalid_categories":[],"other":[]}}
]][[10..39|ada release d# 0.1.0 -> Json
     {"warnings":{"invalid_badges":[],"invalid_categories":[],"other":[]}}
]]ada config -> Json {"api":"http://[[1..2000|a]]","auth-required":true,
    "dl":"http://[[1..2000|a]]/api/v1/crates"}

open -> done
ada search per_page=101 -> Json {"crates":[{"description":null,"max_version":"0.1.0","name":"c10"}
    [[11..99|,{"description":null,"max_version":"0.1.0","name":"c#"}]]
    [[10..19|,{"description":null,"max_version":"0.1.0","name":"d#"}]]],"meta":{"total":120}}
ada search q=d39 -> Json {"crates":[{"description":null,"max_version":"0.1.0","name":"d39"}],
    "meta":{"total":1}}
crates ->
     [[10..99|c#                                                                    1  0.1.0<0a>]]
    [[10..39|d#                                                                    1  0.1.0<0a>]]
export -> config.json(4067) {"api":"http://[[1..2000|a]]","auth-required":true,
    "dl":"http://[[1..2000|a]]/api/v1/crates"};
    [[10..99|3/c/c#(177)
     {"cksum":"e3b0c44298fc1c149afbf4c8996fb92427ae41e4649b934ca495991b7852b855",
    "deps":[],"features":{},"links":null,"name":"c#","rust_version":null,
    "vers":"0.1.0","yanked":false}<0a>;]]
    [[10..39|3/d/d#(177)
     {"cksum":"e3b0c44298fc1c149afbf4c8996fb92427ae41e4649b934ca495991b7852b855",
    "deps":[],"features":{},"links":null,"name":"d#","rust_version":null,
    "vers":"0.1.0","yanked":false}<0a>;]]
audit -> none"#;
    play_over_a_store(&rt, script);
}
