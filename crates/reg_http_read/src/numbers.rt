//! Decimal numbers of any length.

ghost use Rattle.std.specs.Prelude.{◌≡◌, ◌-◌, ◌^◌, IsTrue, min};
ghost use Rattle.std.specs.Char.{is_ascii_digit};
ghost use Rattle.std.specs.List.{list_all};
ghost use Rattle.std.specs.Str.Parse.{digits_value};
ghost use Rattle.reg_http_read.specs.Fields as spec;

pub(crate) fn is_number(text: &[u8]) -> bool
    ensures { result ≡ spec.is_number text.now }
{
    for b in text {
        if !b.is_ascii_digit() {
            return false;
        }
    }
    !text.is_empty()
}

/// The digits from the first that is not zero.
fn without_zeros(text: &[u8]) -> &[u8]
    ensures { result.now ≡ spec.without_zeros text.now }
{
    let mut rest = text;
    while let [b'0', later @ ..] = rest {
        rest = later;
    }
    rest
}

/// Whether the second is a number, and equal to the first.
pub(crate) fn is_same_number(a: &[u8], b: &[u8]) -> bool
    ensures { result ≡ spec.is_same_number a.now b.now }
{
    is_number(b) && without_zeros(b) == without_zeros(a)
}

/// The number that the digits denote, or the largest of its type if it is more.
pub(crate) fn number(digits: &[u8]) -> u64
    requires { IsTrue (list_all is_ascii_digit digits.now) }
    ensures { result ≡ min (digits_value 10 digits.now) (2 ^ 64 - 1) }
{
    let mut total: u64 = 0;
    for digit in digits {
        total = total
            .saturating_mul(10)
            .saturating_add(u64::from(*digit - b'0'));
    }
    total
}
