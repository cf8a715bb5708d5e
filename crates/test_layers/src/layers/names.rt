//! Names and index paths.

use crate::layers::script::play;
use std::test::Fail;

#[test]
fn paths(rt: HostRuntime) -> Result<(), Fail> {
    let script = r#"index-path a -> 1/a
name-of-path 1/a -> a
lower a -> a
index-path ab -> 2/ab
name-of-path 2/ab -> ab
lower ab -> ab
index-path Abc -> 3/a/abc
name-of-path 3/a/abc -> abc
lower Abc -> abc
index-path Cargo -> ca/rg/cargo
name-of-path ca/rg/cargo -> cargo
lower Cargo -> cargo
index-path ac-me -> ac/-m/ac-me
name-of-path ac/-m/ac-me -> ac-me
lower ac-me -> ac-me
index-path ac_me -> ac/_m/ac_me
name-of-path ac/_m/ac_me -> ac_me
lower ac_me -> ac_me
name-of-path ca/rg/Cargo -> none
name-of-path ca/rg/cargx/ -> none
name-of-path "" -> none
name-of-path a -> none
name-of-path 1/ab -> none
name-of-path ca/rg/ -> none
name-of-path é/é/éé -> none"#;
    play(rt.alloc(), script)
}

#[test]
fn name_faults(rt: HostRuntime) -> Result<(), Fail> {
    let script = r#"length abcdefghijklmnopqrstuvwxyzabcdefghijklmnopqrstuvwxyzabcdefghijkl -> 64
parse-name abcdefghijklmnopqrstuvwxyzabcdefghijklmnopqrstuvwxyzabcdefghijkl
     -> abcdefghijklmnopqrstuvwxyzabcdefghijklmnopqrstuvwxyzabcdefghijkl
parse-name abcdefghijklmnopqrstuvwxyzabcdefghijklmnopqrstuvwxyzabcdefghijklm -> none
parse-name 1abc -> none
parse-name "" -> none
parse-name -a -> none
parse-name _a -> none
parse-name a.b -> none
parse-name a b -> none
parse-name é -> none"#;
    play(rt.alloc(), script)
}

#[test]
fn two_spellings(rt: HostRuntime) -> Result<(), Fail> {
    let script = "canon Acme_Net -> acme_net
collides Acme_Net acme-net -> yes
collides Acme_Net acmenet -> no";
    play(rt.alloc(), script)
}
