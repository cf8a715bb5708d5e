//! The method of a request for whose head there is no memory.

ghost use Rattle.std.specs.Prelude.{◌≡◌, ◌++◌, length, take};
ghost use Rattle.std.specs.Str.{bytes_eq};
ghost use Rattle.reg_http_read.specs.Begun.{begins_head, skip_newlines};

/// The bytes from the first that ends no line.
fn skip_newlines(bytes: &[u8]) -> &[u8]
    ensures { result.now ≡ skip_newlines bytes.now }
{
    let mut rest = bytes;
    while let [b'\r' | b'\n', later @ ..] = rest {
        rest = later;
    }
    rest
}

/// Whether the bytes, and `later` behind them, begin with the word.
fn begins_with(bytes: &[u8], later: &[u8], word: &[u8]) -> bool
    ensures { result ≡ bytes_eq word.now (take (length word.now) (bytes.now ++ later.now)) }
{
    let (here, there) = word.split_at(bytes.len().min(word.len()));
    bytes.starts_with(here) && later.starts_with(there)
}

/// Whether a HEAD request begins in the bytes, and `later` behind them. It needs no memory.
pub(crate) fn begins_head(bytes: &[u8], later: &[u8]) -> bool
    ensures { result ≡ begins_head (bytes.now ++ later.now) }
{
    let line = skip_newlines(bytes);
    if line.is_empty() {
        skip_newlines(later).starts_with(b"HEAD ")
    } else {
        begins_with(line, later, b"HEAD ")
    }
}
