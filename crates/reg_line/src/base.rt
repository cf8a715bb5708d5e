//! The address under which a registry is served.

ghost use Rattle.std.specs.Prelude.{◌≡◌};
ghost use Rattle.std.specs.List.{list_all};
ghost use Rattle.reg_line.specs.Base.{is_base, is_under, is_visible};

fn is_visible(b: u8) -> bool
    ensures { result ≡ is_visible b }
{
    b'!' <= b && b <= b'~'
}

fn all_visible(bytes: &[u8]) -> bool
    ensures { result ≡ list_all is_visible bytes.now }
{
    bytes.iter().all(|b| is_visible(*b))
}

fn is_under(scheme: &[u8], text: &[u8]) -> bool
    ensures { result ≡ is_under scheme.now text.now }
{
    text.starts_with(scheme) && scheme.len() < text.len()
}

/// Whether a text may be a registry's base: `http://` or `https://` and something after it, in
/// visible ASCII characters, without a slash at the end.
pub fn is_base(text: &str) -> bool
    ensures { result ≡ is_base text.now }
{
    let bytes = text.as_bytes();
    (is_under(b"http://", bytes) || is_under(b"https://", bytes))
        && all_visible(bytes)
        && !bytes.ends_with(b"/")
}
