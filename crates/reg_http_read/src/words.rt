//! Words of a field's value, compared without regard to case.

ghost use Rattle.std.specs.Prelude.{◌≡◌, ◌==◌, reverse};
ghost use Rattle.std.specs.List.{position_or_len};
ghost use Rattle.httparse.specs.Grammar.{skip_ows, trim_ows};
ghost use Rattle.reg_http_read.specs.Fields as spec;

pub(crate) fn is_same_word(a: &[u8], b: &[u8]) -> bool
    ensures { result ≡ spec.same_word a.now b.now }
{
    a.eq_ignore_ascii_case(b)
}

fn trim_start(text: &[u8]) -> &[u8]
    ensures { result.now ≡ skip_ows text.now }
{
    let mut rest = text;
    while let [b' ' | b'\t', later @ ..] = rest {
        rest = later;
    }
    rest
}

fn trim_end(text: &[u8]) -> &[u8]
    ensures { result.now ≡ reverse (skip_ows (reverse text.now)) }
{
    let mut rest = text;
    while let [earlier @ .., b' ' | b'\t'] = rest {
        rest = earlier;
    }
    rest
}

/// The text without spaces and tabs at either end.
fn trim(text: &[u8]) -> &[u8]
    ensures { result.now ≡ trim_ows text.now }
{
    trim_end(trim_start(text))
}

/// How many bytes come before the first comma.
#[tactic(auto, using(std::proofs::lemmas::List::Sums::position_or_len_is))]
fn to_comma(rest: &[u8]) -> usize
    ensures { result ≡ position_or_len (λ b. b == 44) rest.now }
{
    for (i, b) in rest.iter().enumerate() {
        if *b == b',' {
            return i;
        }
    }
    rest.len()
}

/// Whether an element of a list is this word, ignoring spaces and tabs around it.
fn is_listed(part: &[u8], word: &[u8]) -> bool
    ensures { result ≡ spec.same_word (trim_ows part.now) word.now }
{
    is_same_word(trim(part), word)
}

/// Whether the word is in the list, whose elements are separated by commas.
pub(crate) fn lists_word(value: &[u8], word: &[u8]) -> bool
    ensures { result ≡ spec.lists_word word.now value.now }
{
    let mut rest = value;
    let mut at = to_comma(rest);
    while at < rest.len() {
        let (part, later) = rest.split_at(at);
        if is_listed(part, word) {
            return true;
        }
        (_, rest) = later.split_at(1);
        at = to_comma(rest);
    }
    is_listed(rest, word)
}
