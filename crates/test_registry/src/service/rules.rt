//! Every rule on the state that an action can break, alone and with each other of its rules: the
//! earlier is named.
//!
//! Who asks is a token that is named for the rules that it breaks, as `A3+A7`; `good` breaks none,
//! and `A2` is not there.
//! Ada and Dan own the crates, Carol and Eve do not; Dan and Eve are disabled.
//! There is no acme-no, acme-kit is reserved, and acme-net has two versions, acme-io one.
//! The lines are played where the crates are open, and where Carol and Eve see them as readers;
//! others where they do not see them, and at limits and above.

use crate::service::opening::play as play_blocks;
use crate::service::script::play;
use std::process::Abort;

/// The accounts and the crates.
const THERE: &str = r#"user-add carol -> done
user-add dan -> done
user-add eve -> done
ada release acme-net 0.1.0 -> Json
     {"warnings":{"invalid_badges":[],"invalid_categories":[],"other":[]}}
ada release acme-net 1.0.0+a -> Json
     {"warnings":{"invalid_badges":[],"invalid_categories":[],"other":[]}}
ada release acme-io 1.0.0+a -> Json
     {"warnings":{"invalid_badges":[],"invalid_categories":[],"other":[]}}
owner-add acme-net bob -> done
owner-add acme-net dan -> done
owner-add acme-io dan -> done
reserve acme-kit -> done
user-disable dan -> done
user-disable eve -> done
"#;

/// The crates are open.
pub(crate) const OPEN: &str = "";

/// Owners alone see the crates: to others they break A8 and A9.
pub(crate) const HIDDEN: &str = "crate-restrict acme-net -> done
crate-restrict acme-io -> done
";

/// Carol and Eve see them as readers.
pub(crate) const SEEN: &str = "crate-restrict acme-net -> done
crate-restrict acme-io -> done
reader-add acme-net carol -> done
reader-add acme-net eve -> done
reader-add acme-io carol -> done
reader-add acme-io eve -> done
";

/// Plays lines where these limits, these tokens and the crates are.
pub(crate) fn play_rules<R: Abort + AllocGlobal>(
    rt: &R,
    limits: &str,
    tokens: &str,
    sight: &str,
    lines: &str,
) {
    let alloc = rt.alloc();
    match format!(in alloc; "given two-accounts {limits}\n{THERE}{tokens}{sight}{lines}") {
        Ok(script) => play(rt, &script),
        Err(_) => panic!(rt; "no memory"),
    }
}

/// Plays lines on a registry that is opened with limits below what there is.
pub(crate) fn play_above_limits<R: Abort + AllocGlobal>(rt: &R, tokens: &str, lines: &str) {
    let alloc = rt.alloc();
    let lines = lines.trim_end();
    match format!(in alloc;
        "given two-accounts\n{THERE}{tokens}\nopen versions=1 crates=1 -> done\n{lines}"
    ) {
        Ok(script) => play_blocks(rt, &script),
        Err(_) => panic!(rt; "no memory"),
    }
}
