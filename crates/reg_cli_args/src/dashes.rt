//! Values that begin with a dash.

ghost use Rattle.std.specs.Prelude.{◌≡◌, ◌==◌};
ghost use Rattle.std.specs.List.{after_first};
ghost use Rattle.reg_cli_args.specs.Dashes.{begins_with_dash, is_dashed};

fn has_dash_behind(word: &str) -> bool
    ensures { result ≡ begins_with_dash (after_first (λ b. b == 61) word.now) }
{
    match word.split_once('=') {
        Some((_, value)) => value.starts_with('-'),
        None => false,
    }
}

/// Whether an argument is a value that begins with `-`, or `--`, after which such values could
/// follow. `clap` takes both: the value of an option after `=`, and `-` alone.
pub fn is_dashed(word: &str) -> bool
    ensures { result ≡ is_dashed word.now }
{
    word == "-" || word == "--" || word.starts_with('-') && has_dash_behind(word)
}
