//! What refusals are told.

use crate::layers::script::play;
use std::test::Fail;

#[test]
fn statuses_and_texts_of_rules(rt: HostRuntime) -> Result<(), Fail> {
    let script = "told H1 -> H1: 400 H1 bad request head
told H2 -> H2: 431 H2 request head too large
told H3 -> H3: 411 H3 transfer encoding not accepted
told H4 -> H4: 400 H4 bad content length
told H5 -> H5: 413 H5 request body too large
told H6 -> H6: 404 H6 no such route
told H7 -> H7: 405 H7 method not allowed
told A1 -> A1: 401 A1 no token
told A2 -> A2: 403 A2 unknown token
told A3 -> A3: 403 A3 token revoked
told A4 -> A4: 403 A4 user disabled
told A6 -> A6: 403 A6 endpoint not in token scope
told A7 -> A7: 403 A7 crate not in token scope
told A8 -> A8: 404 A8 no such crate
told A9 -> A9: 403 A9 not an owner of this crate
told A10 -> A10: 404 A10 no such version
told B1 -> B1: 400 B1 publish body too short
told B2 -> B2: 400 B2 publish body has trailing bytes
told B3 -> B3: 413 B3 metadata or archive too long
told B4 -> B4: 400 B4 metadata is not JSON
told B5 -> B5: 400 B5 metadata field missing or of the wrong kind
told N1 -> N1: 400 N1 bad crate name
told N2 -> N2: 409 N2 crate name is reserved
told N3 -> N3: 409 N3 crate exists under another spelling
told V1 -> V1: 400 V1 bad version
told V2 -> V2: 409 V2 version already published
told M1 -> M1: 400 M1 bad dependency
told L1 -> L1: 409 L1 too many versions
told L2 -> L2: 409 L2 too many crates
told O1 -> O1: 400 O1 bad owner request
told O2 -> O2: 404 O2 no such user
told O3 -> O3: 400 O3 user is not an owner
told O4 -> O4: 409 O4 no owner would be left
told Q1 -> Q1: 400 Q1 bad per_page
told S1 -> S1: 503 S1 storage or memory";
    play(rt.alloc(), script)
}

#[test]
fn texts_of_the_administrators_refusals(rt: HostRuntime) -> Result<(), Fail> {
    let script = "told G1 -> G1: G1 bad login or name
told G2 -> G2: G2 login taken
told G3 -> G3: G3 no such login
told G4 -> G4: G4 bad pattern or crate name
told G5 -> G5: G5 token digest taken
told G6 -> G6: G6 no such token
told G7 -> G7: G7 too many
told G8 -> G8: G8 no such crate
told G9 -> G9: G9 no endpoint
told G10 -> G10: G10 storage or memory";
    play(rt.alloc(), script)
}
