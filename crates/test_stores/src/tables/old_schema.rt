//! Tables of schema 1, as its statements make them: taken over, and brought to schema 2.

use crate::tables::scripts::connects;
use std::test::Fail;

const OLD_SCHEMA: &str = "make-old -> done
ours -> no
adopt -> done
rows SELECT schema, base FROM about -> 1:https://index.example;
rows SELECT id, login, enabled FROM accounts ORDER BY id -> 1:ada:1;2:bob:1;
rows SELECT token, place, pattern FROM scopes ORDER BY token, place -> 1:0:a;1:1:*;2:0:acme-*;
rows SELECT c.name, o.account, v.vers FROM crates c JOIN owners o ON o.crate = c.id JOIN \
versions v ON v.crate = c.id -> a:1:0.1.0;
rows SELECT crate, highest, index_length FROM summaries -> 1:1:175;
migrate -> yes
ours -> yes
rows SELECT schema, base FROM about -> 2:https://index.example;
rows SELECT id, login, enabled FROM accounts ORDER BY id -> 1:ada:1;2:bob:1;
rows SELECT token, place, pattern FROM scopes ORDER BY token, place -> 1:0:a;1:1:*;2:0:acme-*;
rows SELECT c.name, o.account, v.vers FROM crates c JOIN owners o ON o.crate = c.id JOIN \
versions v ON v.crate = c.id -> a:1:0.1.0;
rows SELECT crate, highest, index_length FROM summaries -> 1:1:175;
rows SELECT crate FROM restricted -> none
rows SELECT crate, account FROM readers -> none
migrate -> no
adopt -> done
UPDATE about SET schema = 3 -> done
adopt -> unknown
migrate -> unknown";

#[test]
fn old_schema(rt: HostRuntime) -> Result<(), Fail> {
    connects(&rt, rt.alloc(), OLD_SCHEMA)
}
