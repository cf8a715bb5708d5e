//! Logins, patterns, and their ranges.

use crate::layers::script::play;
use std::test::Fail;

#[test]
fn what_a_pattern_covers(rt: HostRuntime) -> Result<(), Fail> {
    let script = r#"parse-pattern acme -> acme
covers acme ACME -> yes
covers acme acme2 -> no
parse-pattern *a -> none
parse-pattern "" -> none
parse-pattern 9* -> none
parse-pattern a** -> none
parse-pattern a.b -> none
parse-pattern -* -> none"#;
    play(rt.alloc(), script)
}

#[test]
fn prefix_pattern(rt: HostRuntime) -> Result<(), Fail> {
    let script = "covers acme-* acme_io -> yes
covers acme-* Acme-Net -> yes
covers acme-* acmex -> no
covers acme-* acme -> no";
    play(rt.alloc(), script)
}

#[test]
fn compiled_ranges(rt: HostRuntime) -> Result<(), Fail> {
    let script = "compile z* -> from 'z' to 'z{'
compile Ac-me -> from 'ac_me' to 'ac_me!'
compile * -> from '' to '{'";
    play(rt.alloc(), script)
}

#[test]
fn names_in_a_range(rt: HostRuntime) -> Result<(), Fail> {
    let script = "in-range z* z -> yes
in-range z* zz -> yes
in-range z* z9 -> yes
in-range z* z_ -> yes
in-range z* yz -> no";
    play(rt.alloc(), script)
}

#[test]
fn longest_prefix(rt: HostRuntime) -> Result<(), Fail> {
    let script = "compile abcdefghijklmnopqrstuvwxyzabcdefghijklmnopqrstuvwxyzabcdefghij-l*
     -> from 'abcdefghijklmnopqrstuvwxyzabcdefghijklmnopqrstuvwxyzabcdefghij_l'
     to 'abcdefghijklmnopqrstuvwxyzabcdefghijklmnopqrstuvwxyzabcdefghij_l{'
length abcdefghijklmnopqrstuvwxyzabcdefghijklmnopqrstuvwxyzabcdefghij_l{ -> 65
in-range abcdefghijklmnopqrstuvwxyzabcdefghijklmnopqrstuvwxyzabcdefghij-l*
     ABCDEFGHIJKLMNOPQRSTUVWXYZabcdefghijklmnopqrstuvwxyzabcdefghij_l -> yes
in-range abcdefghijklmnopqrstuvwxyzabcdefghijklmnopqrstuvwxyzabcdefghij-l*
     abcdefghijklmnopqrstuvwxyzabcdefghijklmnopqrstuvwxyzabcdefghij_m -> no";
    play(rt.alloc(), script)
}

#[test]
fn logins(rt: HostRuntime) -> Result<(), Fail> {
    let script = r#"parse-login ada -> ada
parse-login a-b_9 -> a-b_9
parse-login abcdefghijklmnopqrstuvwxyzabcdef -> abcdefghijklmnopqrstuvwxyzabcdef
parse-login abcdefghijklmnopqrstuvwxyzabcdefg -> none
parse-login Ada -> none
parse-login 1a -> none
parse-login "" -> none"#;
    play(rt.alloc(), script)
}
