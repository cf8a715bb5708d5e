//! The bodies that are always the same.

ghost use Rattle.std.specs.Prelude.{◌≡◌};
ghost use Rattle.reg_api_replies.specs.Bodies as bodies;

/// A version was published.
pub fn publish_body() -> &'static [u8]
    ensures { result.now ≡ bodies.publish_body }
{
    br#"{"warnings":{"invalid_badges":[],"invalid_categories":[],"other":[]}}"#
}

/// A version was yanked or unyanked.
pub fn ok_body() -> &'static [u8]
    ensures { result.now ≡ bodies.ok_body }
{
    br#"{"ok":true}"#
}

/// Owners were added.
pub fn owners_added_body() -> &'static [u8]
    ensures { result.now ≡ bodies.owners_added_body }
{
    br#"{"msg":"owners added","ok":true}"#
}

/// Owners were removed.
pub fn owners_removed_body() -> &'static [u8]
    ensures { result.now ≡ bodies.owners_removed_body }
{
    br#"{"msg":"owners removed","ok":true}"#
}
