//! What holds of the definitions, whatever the code.
//! The functions do nothing: their contracts are the laws.

ghost use Rattle.std.specs.Prelude.{◌≡◌, ℕ, List, None, Ok, Err, false};
ghost use Rattle.std.specs.Str.{is_utf8};
ghost use Rattle.reg_names.specs.Names.{is_name, name_at};
ghost use Rattle.reg_versions.specs.Versions.{is_version};
ghost use Rattle.reg_body.specs.Frames.{Frame, IsCut, IsTooLong, IsTrailed, IsWithin};
ghost use Rattle.reg_body.specs.declared.limits.Limits.{Limits};
ghost use Rattle.reg_body.specs.declared.frame.BodyFault.TheVariants.{Short, Trailing, TooLong};
ghost use Rattle.reg_line.specs.Line.{IsStem};
ghost use Rattle.reg_manifest.specs.Manifests.{Metadata};
ghost use Rattle.reg_api_requests.specs.Bodies.{body_parts};
ghost use Rattle.reg_api_requests.specs.Publish.{stem_of};
ghost use Rattle.reg_api_requests.specs.Requests.{text_in};

/// The parts of a body are those of its frame, and a body without them breaks its rule.
pub fn frame_law()
    ensures parts { (limits : Limits) (b j a : List ℕ) → Frame b j a → IsWithin limits j a
        → body_parts limits b ≡ Ok (j, a) }
    ensures short { (limits : Limits) (b : List ℕ) → IsCut b → body_parts limits b ≡ Err Short }
    ensures trailing { (limits : Limits) (b : List ℕ) → IsTrailed b
        → body_parts limits b ≡ Err Trailing }
    ensures too_long { (limits : Limits) (b : List ℕ) → IsTooLong limits b
        → body_parts limits b ≡ Err TooLong }
{}

/// The stem of a manifest is the one its line begins with, whatever the yanked mark.
pub fn stem_law()
    ensures { (m : Metadata) (digest : List ℕ) → IsStem m digest (stem_of m digest) }
{}

/// Bytes that are not UTF-8 name no crate, no version and no index file.
pub fn bad_text_law()
    ensures name { (b : List ℕ) → is_utf8 b ≡ false → is_name (text_in b) ≡ false }
    ensures version { (b : List ℕ) → is_utf8 b ≡ false → is_version (text_in b) ≡ false }
    ensures path { (b : List ℕ) → is_utf8 b ≡ false → name_at (text_in b) ≡ None }
{}
