//! What the refusals of requests mean.

use crate::explaining::{Meaning, Subject};
use reg_policy::Rule;

/// What is wrong with the head of a request.
pub(crate) const HEADS: [Meaning; 7] = [
    Meaning {
        subject: Subject::Rule(Rule::H1),
        text: "The head is not well-formed HTTP, or has no `Host` field, or has two.\n\
               Send well-formed lines and one `Host`, which only HTTP/1.0 may leave out.\n\
               The connection closes at once: if you keep on sending, the reply may be \
               lost.\n",
    },
    Meaning {
        subject: Subject::Rule(Rule::H2),
        text: "The head is longer than 16,384 bytes or has more than 64 fields.\n\
               Send fewer or shorter fields; a proxy in front may add some.\n",
    },
    Meaning {
        subject: Subject::Rule(Rule::H3),
        text: "The request has a `Transfer-Encoding` field.\n\
               Send the body with its `Content-Length`, not in chunks.\n",
    },
    Meaning {
        subject: Subject::Rule(Rule::H4),
        text: "A `Content-Length` is not a number in decimal digits, or two of them differ.\n\
               Send the length once, in decimal digits.\n",
    },
    Meaning {
        subject: Subject::Rule(Rule::H5),
        text: "The body is longer than 37,748,744 bytes, which is the largest publish.\n\
               Leave files out of the package with `exclude` in `Cargo.toml`.\n\
               Behind `nginx` it is the proxy that refuses, with a 413 of its own.\n\
               To ask before you send, use `Expect: 100-continue`.\n",
    },
    Meaning {
        subject: Subject::Rule(Rule::H6),
        text: "The registry has no such path.\n\
               The index in `.cargo/config.toml` must be the base followed by `/index/`.\n\
               If it is, the registry was made with the wrong base: tell the administrator.\n\
               With a wrong index `cargo` says `config.json not found in registry`.\n",
    },
    Meaning {
        subject: Subject::Rule(Rule::H7),
        text: "The path exists, but not with this method.\n\
               The reply's `allow` field names the methods that it takes.\n",
    },
];

/// What the access rules refuse.
pub(crate) const ACCESS: [Meaning; 9] = [
    Meaning {
        subject: Subject::Rule(Rule::A1),
        text: "The request has no token, or has two `Authorization` fields.\n\
               Run `cargo login --registry NAME` with the token that the administrator \
               gave you.\n\
               In `.cargo/config.toml` the registry needs a line such as \
               `credential-provider = \"cargo:token\"`.\n",
    },
    Meaning {
        subject: Subject::Rule(Rule::A2),
        text: "No token of this registry has this text.\n\
               Log in again and paste the text alone, without a word such as `Bearer`.\n\
               If the login itself is refused, run `cargo logout --registry NAME` first.\n",
    },
    Meaning {
        subject: Subject::Rule(Rule::A3),
        text: "The administrator has revoked this token, and it stays revoked.\n\
               Get a new one, run `cargo logout --registry NAME`, and log in with it.\n",
    },
    Meaning {
        subject: Subject::Rule(Rule::A4),
        text: "Your account is disabled, and all its tokens with it.\n\
               Ask the administrator, who can enable it again with `user-enable LOGIN`.\n",
    },
    Meaning {
        subject: Subject::Rule(Rule::A6),
        text: "Your token may not do this.\n\
               A new crate needs `publish-new`, a further version `publish-update`.\n\
               Yank and unyank need `yank`, and a change of owners `change-owners`.\n\
               Ask the administrator for another token with that endpoint.\n",
    },
    Meaning {
        subject: Subject::Rule(Rule::A7),
        text: "The patterns of your token do not cover this crate's name.\n\
               Ask the administrator for a token whose `--patterns` cover it.\n",
    },
    Meaning {
        subject: Subject::Rule(Rule::A8),
        text: "There is no such crate, or it is restricted and you neither own nor read it.\n\
               Check the name, or ask the administrator to make you a reader.\n\
               `cargo` may say that the crate was not found, or that no package matches.\n",
    },
    Meaning {
        subject: Subject::Rule(Rule::A9),
        text: "Your account does not own this crate.\n\
               Ask one of its owners to run `cargo owner --add YOUR_LOGIN CRATE`.\n\
               If no owner is left, the administrator can run `owner-add CRATE LOGIN`.\n",
    },
    Meaning {
        subject: Subject::Rule(Rule::A10),
        text: "The crate has no version of exactly this text.\n\
               Write it as it was published, with everything after its `+`.\n",
    },
];

/// What is wrong with the contents of a publish, and the limits that it meets.
pub(crate) const CONTENTS: [Meaning; 13] = [
    Meaning {
        subject: Subject::Rule(Rule::B1),
        text: "The upload is not complete: it was cut or changed on its way.\n\
               Publish again; if it happens every time, the proxy or the client is at \
               fault.\n",
    },
    Meaning {
        subject: Subject::Rule(Rule::B2),
        text: "The upload goes on after the archive: it was changed on its way.\n\
               Publish again; if it happens every time, the proxy or the client is at \
               fault.\n",
    },
    Meaning {
        subject: Subject::Rule(Rule::B3),
        text: "The package is larger than 32 MiB, or its metadata is larger than 4 MiB.\n\
               Leave files out with `exclude` in `Cargo.toml`; the metadata holds the \
               whole readme.\n",
    },
    Meaning {
        subject: Subject::Rule(Rule::B4),
        text: "The metadata of the publish is not JSON.\n\
               The client is not `cargo`, or is a `cargo` that this registry does not know.\n",
    },
    Meaning {
        subject: Subject::Rule(Rule::B5),
        text: "A field of the metadata is missing, or is not the kind of value that it \
               must be.\n\
               The client is not `cargo`, or is a `cargo` that this registry does not know.\n",
    },
    Meaning {
        subject: Subject::Rule(Rule::N1),
        text: "A crate name is 1 to 64 ASCII letters, digits, `-` and `_`, and begins with \
               a letter.\n\
               Rename the crate.\n",
    },
    Meaning {
        subject: Subject::Rule(Rule::N2),
        text: "The name is reserved, by the administrator or as the name of a Windows \
               device.\n\
               Take another name, or ask the administrator to run `unreserve NAME`.\n\
               Names of Windows devices, such as `con` and `nul`, are always reserved.\n",
    },
    Meaning {
        subject: Subject::Rule(Rule::N3),
        text: "This crate exists with other capitals, or with `-` and `_` exchanged.\n\
               Publish under the first spelling.\n",
    },
    Meaning {
        subject: Subject::Rule(Rule::V1),
        text: "This is no version of SemVer 2.0.0, or a number of it does not fit 64 bits.\n\
               Correct `version` in `Cargo.toml`.\n",
    },
    Meaning {
        subject: Subject::Rule(Rule::V2),
        text: "This version exists already; versions that differ only after a `+` count as \
               one.\n\
               Raise it: what was published can be yanked, but never replaced.\n\
               After an upload that broke off or was `S1`, this says that it was done \
               after all.\n",
    },
    Meaning {
        subject: Subject::Rule(Rule::M1),
        text: "A dependency has an empty name, or a requirement or kind that cannot be \
               read.\n\
               Correct that dependency in `Cargo.toml`.\n",
    },
    Meaning {
        subject: Subject::Rule(Rule::L1),
        text: "The crate has 10,000 versions, and a crate takes no more.\n\
               Go on under a new name.\n",
    },
    Meaning {
        subject: Subject::Rule(Rule::L2),
        text: "The registry has 1,000,000 crates, and takes no more.\n\
               Tell the administrator.\n",
    },
];

/// What is wrong with a list of owners or a query, and a store that cannot serve.
pub(crate) const OTHERS: [Meaning; 6] = [
    Meaning {
        subject: Subject::Rule(Rule::O1),
        text: "A request on owners names 1 to 32 logins.\n\
               Name fewer at once.\n",
    },
    Meaning {
        subject: Subject::Rule(Rule::O2),
        text: "One of the logins is unknown, or its account is disabled; nobody was added.\n\
               Check the logins with the administrator.\n",
    },
    Meaning {
        subject: Subject::Rule(Rule::O3),
        text: "One of the logins does not own the crate; nobody was removed.\n\
               List the owners with `cargo owner --list CRATE`.\n",
    },
    Meaning {
        subject: Subject::Rule(Rule::O4),
        text: "A crate keeps at least one owner; nobody was removed.\n\
               Add another owner first.\n",
    },
    Meaning {
        subject: Subject::Rule(Rule::Q1),
        text: "`per_page` of a search is a decimal number from 1 up.\n\
               Send such a number, or leave it out to get 10 crates.\n",
    },
    Meaning {
        subject: Subject::Rule(Rule::S1),
        text: "Disk or memory failed, and nothing was changed; tell the administrator.\n\
               One exception: if the commit failed, as on a full disk, the whole change \
               may be there.\n\
               Look before you repeat it: `V2` after a repeated publish means that it was \
               there.\n\
               The server then opens its file again before the next connection, and ends \
               if it cannot.\n",
    },
];
