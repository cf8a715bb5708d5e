//! What a search asks for.

ghost use Rattle.std.specs.Prelude.{◌≡◌, ◌&&◌, if◌then◌else◌, Some, None, min, option_map, unwrap_or, []};
ghost use Rattle.std.specs.Char.{is_ascii_digit};
ghost use Rattle.std.specs.Cow.{cow_str_bytes};
ghost use Rattle.std.specs.List.{list_all};
ghost use Rattle.std.specs.Str.Parse.{digits_value};
ghost use Rattle.reg_api_requests.specs.Search.{page_of as page_given, page_size as page_written};

use std::borrow::CowStr;

/// How many crates a search gives at most: if the query does not say, and whatever it says.
const PAGE: u32 = 10;

const LARGEST_PAGE: u32 = 100;

/// The number that the digits denote, or the largest page if more.
fn number(digits: &[u8]) -> Option<u32>
    ensures { result ≡ (if list_all is_ascii_digit digits.now
        then Some (min 100 (digits_value 10 digits.now)) else None) }
{
    let mut number = 0;
    for digit in digits {
        if !digit.is_ascii_digit() {
            return None;
        }
        number = (10 * number + u32::from(*digit - b'0')).min(LARGEST_PAGE);
    }
    Some(number)
}

fn page_size(text: &str) -> Option<u32>
    ensures { result ≡ page_written text.now }
{
    match number(text.as_bytes()) {
        Some(0) => None,
        other => other,
    }
}

/// How many crates are asked for at most; none if the text is no number above 0.
pub(crate) fn page_of(text: &Option<CowStr<'_>>) -> Option<u32>
    ensures { result ≡ page_given (option_map cow_str_bytes text.now) }
{
    match text {
        Some(text) => page_size(text.as_str()),
        None => Some(PAGE),
    }
}

pub(crate) fn or_empty<'a>(text: &'a Option<CowStr<'a>>) -> &'a str
    ensures { result.now ≡ unwrap_or (option_map cow_str_bytes text.now) [] }
{
    match text {
        Some(text) => text.as_str(),
        None => "",
    }
}
