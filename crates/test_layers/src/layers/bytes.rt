//! Bytes as texts: a byte that is no printable character of ASCII stands in hex, as `<0a>`.

use std::alloc::{AllocError, Global};

/// How many bytes there are, and the bytes as a text.
pub(crate) fn counted(alloc: Global, bytes: &[u8]) -> Result<String, AllocError> {
    let mut text = format!(in alloc; "{}:", bytes.len())?;
    for byte in bytes {
        if (b' '..=b'~').contains(byte) && *byte != b'<' {
            text.push(char::from(*byte))?;
        } else {
            text.push_str(&format!(in alloc; "<{byte:02x}>")?)?;
        }
    }
    Ok(text)
}

/// The bytes that a text stands for. A `<` stands only before two digits and `>`.
pub(crate) fn bytes_of(alloc: Global, text: &str) -> Result<Vec<u8>, AllocError> {
    let mut bytes = Vec::new(alloc);
    for (place, part) in text.split('<').enumerate() {
        let mut rest = part;
        if place > 0 {
            let (digits, behind) = part.split_once('>').unwrap_or((part, ""));
            if let Ok(byte) = u8::from_str_radix(digits, 16) {
                bytes.push(byte)?;
            }
            rest = behind;
        }
        bytes.extend_from_slice(rest.as_bytes())?;
    }
    Ok(bytes)
}
