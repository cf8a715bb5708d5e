//! What the refusals of commands and files mean, and the other ends of a run.

use crate::explaining::{Meaning, Subject};
use reg_model::AdminRefusal;
use reg_service::Check;

/// Each refusal of a command.
pub(crate) const COMMANDS: [Meaning; 10] = [
    Meaning {
        subject: Subject::Command(AdminRefusal::G1),
        text: "A login is 1 to 32 of `a` to `z`, `0` to `9`, `-` and `_`, and begins with \
               a letter.\n\
               A name is 1 to 100 printable ASCII characters, spaces included.\n",
    },
    Meaning {
        subject: Subject::Command(AdminRefusal::G2),
        text: "An account has this login already, and accounts are never removed.\n\
               Take another login; if the account is disabled, `user-enable LOGIN` brings \
               it back.\n",
    },
    Meaning {
        subject: Subject::Command(AdminRefusal::G3),
        text: "No account has this login.\n\
               `users` lists the accounts.\n",
    },
    Meaning {
        subject: Subject::Command(AdminRefusal::G4),
        text: "A crate name is 1 to 64 ASCII letters, digits, `-` and `_`, and begins with \
               a letter.\n\
               A pattern is a crate name, a crate name followed by `*`, or `*` alone.\n\
               Separate patterns with commas, without spaces; an empty pattern is refused.\n",
    },
    Meaning {
        subject: Subject::Command(AdminRefusal::G5),
        text: "A token with this digest exists already, live or revoked.\n\
               Make a new text, and give its digest.\n",
    },
    Meaning {
        subject: Subject::Command(AdminRefusal::G6),
        text: "No token has this number.\n\
               `tokens` lists them, with the number in the first column.\n",
    },
    Meaning {
        subject: Subject::Command(AdminRefusal::G7),
        text: "The registry has 1,000,000 accounts or tokens, or the token more than 64 \
               patterns.\n\
               One pattern with a `*` can stand for many names.\n",
    },
    Meaning {
        subject: Subject::Command(AdminRefusal::G8),
        text: "The registry has no crate of this name.\n\
               `crates` lists the crates.\n",
    },
    Meaning {
        subject: Subject::Command(AdminRefusal::G9),
        text: "`--endpoints` is missing or empty, or names something that is not an \
               endpoint.\n\
               The endpoints are `publish-new`, `publish-update`, `yank` and \
               `change-owners`.\n\
               Separate them with commas, without spaces.\n",
    },
    Meaning {
        subject: Subject::Command(AdminRefusal::G10),
        text: "Disk or memory failed, and nothing was changed.\n\
               One exception: if the commit failed, as on a full disk, the whole change \
               may be there.\n\
               Make room, look with `users`, `tokens` or `crates`, and then repeat the \
               command.\n\
               `token-add` may have left a token whose text nobody saw: revoke it.\n",
    },
];

/// Each check that a file can fail.
pub(crate) const DAMAGES: [Meaning; 8] = [
    Meaning {
        subject: Subject::Damage(Check::C1),
        text: "The base is invalid, or the accounts' numbers, logins or names are.\n\
               Restore a backup with `registry-restore`.\n",
    },
    Meaning {
        subject: Subject::Damage(Check::C2),
        text: "The numbers, digests, endpoints or patterns of the tokens are invalid.\n\
               Restore a backup with `registry-restore`.\n",
    },
    Meaning {
        subject: Subject::Damage(Check::C3),
        text: "A crate has a bad name, no owner or no version.\n\
               Restore a backup with `registry-restore`.\n",
    },
    Meaning {
        subject: Subject::Damage(Check::C4),
        text: "An archive is missing or left over, or its SHA-256 differs.\n\
               Restore a backup with `registry-restore`.\n",
    },
    Meaning {
        subject: Subject::Damage(Check::C5),
        text: "A version is invalid, or its index line is not one of that version.\n\
               Restore a backup with `registry-restore`.\n",
    },
    Meaning {
        subject: Subject::Damage(Check::C6),
        text: "A reserved name is not a crate name in its canonical form, or is always \
               reserved.\n\
               Restore a backup with `registry-restore`.\n",
    },
    Meaning {
        subject: Subject::Damage(Check::C7),
        text: "A crate's summary does not fit its versions.\n\
               Restore a backup with `registry-restore`.\n",
    },
    Meaning {
        subject: Subject::Damage(Check::C8),
        text: "A restricted crate, or the crate or account of a reader, is not there.\n\
               Restore a backup with `registry-restore`.\n",
    },
];

/// Other ends of a run.
pub(crate) const WORDS: [Meaning; 11] = [
    Meaning {
        subject: Subject::Words("bad base"),
        text: "A base is `http://` or `https://`, then printable ASCII without spaces, \
               with no `/` at the end.\n\
               The file stays empty: run `init` on it again with a valid base.\n",
    },
    Meaning {
        subject: Subject::Words("unknown schema"),
        text: "The file holds no registry, or a registry of another program.\n\
               Check that `--db` names the right file; one made by a mistyped name may be \
               deleted with its log.\n\
               From `init` it means that the file holds something already; it stays as it \
               is.\n",
    },
    Meaning {
        subject: Subject::Words("storage"),
        text: "A file, its log, the disk or memory failed, or another run, such as the \
               server, has the file.\n\
               Stop the server; check disk, memory and permissions, and that file and log \
               have no second name.\n\
               If the file is gone or empty and its log is not, put the file back beside \
               its log.\n\
               With `--random`, `--setup` or `export` it may be that file or folder; with `--at` \
               no server listens there, or its reply did not come; else restore a backup.\n",
    },
    Meaning {
        subject: Subject::Words("bad words"),
        text: "The program does not take these arguments.\n\
               `registry_cli --help` lists the subcommands; `registry_cli SUBCOMMAND \
               --help` has an example.\n",
    },
    Meaning {
        subject: Subject::Words("bad setup line"),
        text: "A line of the setup file is not an administrator's command; the lines \
               before it are done.\n\
               A line has one command without `--db`, with single spaces; `token-add` \
               needs `--digest` there.\n\
               A file that is not UTF-8 is refused as a whole, and nothing of it is done.\n",
    },
    Meaning {
        subject: Subject::Words("listen fault"),
        text: "The port is taken or not allowed to this user, or accepting a connection \
               failed.\n\
               Stop the program that has the port, or take another.\n",
    },
    Meaning {
        subject: Subject::Words("read fault"),
        text: "Standard input failed.\n\
               Run the command again; what `pipe` had answered by then is kept.\n",
    },
    Meaning {
        subject: Subject::Words("write fault"),
        text: "Standard output failed, as on a full disk or a closed pipe.\n\
               The command itself may be done, so look before you repeat it.\n\
               After `token-add` the token exists and nobody saw its text: find it with \
               `tokens`, revoke it.\n",
    },
    Meaning {
        subject: Subject::Words("too many turns"),
        text: "The run used up its 100,000,000 read and write calls.\n\
               Send less at once; what `pipe` had answered by then is kept.\n",
    },
    Meaning {
        subject: Subject::Words("store fault"),
        text: "The file or memory failed while `pipe` was sending an index file, and the \
               reply breaks off.\n\
               Nothing was changed; look at the disk and memory, and ask again.\n",
    },
    Meaning {
        subject: Subject::Words("memory"),
        text: "The program ran out of memory, for example while it read its arguments or \
               the input of `line`.\n\
               Give it more memory.\n\
               While a file is opened this is `storage`, in a command `G10`, and in a \
               request `S1`.\n",
    },
];
