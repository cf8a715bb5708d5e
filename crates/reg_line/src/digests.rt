//! SHA-256 digests (FIPS 180-4) and their hex text.

ghost use Rattle.std.specs.Prelude.{◌≡◌, IfOk, string_bytes};
ghost use Rattle.hex.specs.Hex.{encode_lower};
ghost use Rattle.sha2.specs.Sha256.{sha256};

use sha2::{Digest as _, Sha256};
use std::alloc::{AllocError, Global};

/// A SHA-256 digest.
pub type Digest = [u8; 32];

/// The SHA-256 digest of some bytes.
pub fn digest_of(bytes: &[u8]) -> Digest
    ensures { result ≡ sha256 bytes.now }
{
    Sha256::digest(bytes)
}

/// The 64 lower-case hex digits of a digest.
pub(crate) fn hex_text(alloc: Global, digest: &Digest) -> Result<String, AllocError>
    ensures { IfOk result (λ s. string_bytes s ≡ encode_lower digest.now) }
{
    hex::encode(alloc, digest.as_slice())
}
