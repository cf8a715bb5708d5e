//! Words with commas between them.

ghost use Rattle.std.specs.Prelude.{◌≡◌, map};
ghost use Rattle.std.specs.Fmt.{WritesOnOk};
ghost use Rattle.reg_model.specs.Reports.{with_commas};

use reg_names::Pattern;
use std::fmt;

/// What is shown as one word.
pub trait Word {
    ghost use Rattle.reg_model.specs.Registry.{Text};

    ghost text: { Self → Text };

    fn text(&self) -> &str
        ensures { result.now ≡ text self.now };
}

impl Word for Pattern {
    ghost text = { λ pattern. pattern };

    fn text(&self) -> &str {
        self.as_str()
    }
}

impl Word for &str {
    ghost text = { λ word. word.now };

    fn text(&self) -> &str {
        self
    }
}

fn write_with_commas<T: Word, W: fmt::Write>(f: &mut fmt::Formatter<W>, words: &[T]) -> fmt::Result
    ensures { WritesOnOk W.write_str_gives f.old result (with_commas (map T.text words.now)) f.new }
{
    match words {
        [] => Ok(()),
        [last] => f.write_str(last.text()),
        [word, more @ ..] => {
            write!(f, "{},", word.text())?;
            write_with_commas(f, more)
        }
    }
}

/// Words with commas between them.
#[derive(Drop)]
pub struct WithCommas<'a, T>(pub &'a [T]);

impl<T: Word> fmt::Display for WithCommas<'_, T> {
    ghost use Rattle.std.specs.Prelude.{Some, map};
    ghost use Rattle.reg_model.specs.Reports.{with_commas};

    ghost output = { λ words. Some (with_commas (map T.text words.0.now)) };

    fn fmt<W: fmt::Write>(&self, f: &mut fmt::Formatter<W>) -> fmt::Result {
        write_with_commas(f, self.0)
    }
}
