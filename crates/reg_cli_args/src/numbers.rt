//! Numbers among the arguments.

ghost use Rattle.std.specs.Prelude.{◌≡◌, ◌^◌};
ghost use Rattle.std.specs.Char.{is_ascii_digit};
ghost use Rattle.std.specs.List.{list_all};
ghost use Rattle.reg_cli_args.specs.Orders.{number_below, port_of};

fn are_digits(text: &str) -> bool
    ensures { result ≡ list_all is_ascii_digit text.now }
{
    text.bytes().all(|b| b.is_ascii_digit())
}

/// The number that decimal digits denote, if it is below 2^64. Leading zeros are accepted; a sign
/// is not.
pub fn decimal(text: &str) -> Option<u64>
    ensures { result ≡ number_below (2 ^ 64) text.now }
{
    if are_digits(text) {
        text.parse().ok()
    } else {
        None
    }
}

/// The number of a token, if it can be one.
pub(crate) fn token_id(text: &str) -> Option<u32>
    ensures { result ≡ number_below (2 ^ 32) text.now }
{
    match decimal(text) {
        Some(number) => u32::try_from(number).ok(),
        None => None,
    }
}

/// The port of this number, from 1 to 65535.
pub fn port(number: u64) -> Option<u16>
    ensures { result ≡ port_of number }
{
    match u16::try_from(number) {
        Ok(0) => None,
        Ok(port) => Some(port),
        Err(_) => None,
    }
}
