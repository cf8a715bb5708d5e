//! What holds of heads, whatever the code.
//! The functions do nothing: their contracts are the laws.

ghost use Rattle.std.specs.Prelude.{◌≡◌, ◌<◌, ◌≤◌, ◌++◌, [], Bool, true, length, take};
ghost use Rattle.reg_body.specs.declared.limits.Limits.{Limits};
ghost use Rattle.reg_model.specs.Registry.{Text};
ghost use Rattle.reg_model.specs.declared.rule.Rule.{Rule};
ghost use Rattle.reg_http_read.specs.Begun.{IsRefused, begins_head, is_head_only};
ghost use Rattle.reg_http_read.specs.Heads.{Facts, IsHeadAt, IsRefusedAt, IsUnfinished, greatest_body};

/// A head lies within the bytes, is not empty, and its body is at most the largest.
pub fn bounds_law()
    ensures some { (limits : Limits) (b : Text) (f : Facts) → IsHeadAt limits b f → 0 < f.len }
    ensures within { (limits : Limits) (b : Text) (f : Facts) → IsHeadAt limits b f
        → f.len ≤ length b }
    ensures body { (limits : Limits) (b : Text) (f : Facts) → IsHeadAt limits b f
        → f.body_len ≤ greatest_body limits }
{}

/// What was read stays so whatever follows, and a head needs only its own bytes.
pub fn append_law()
    ensures head { (limits : Limits) (b more : Text) (f : Facts) → IsHeadAt limits b f
        → IsHeadAt limits (b ++ more) f }
    ensures alone { (limits : Limits) (b : Text) (f : Facts) → IsHeadAt limits b f
        → IsHeadAt limits (take f.len b) f }
    ensures refused { (limits : Limits) (b more : Text) (r : Rule) (head_only : Bool)
        → IsRefusedAt limits b r head_only → IsRefusedAt limits (b ++ more) r head_only }
{}

/// Nothing is refused if nothing came, unless no head may have a byte.
pub fn quiet_law()
    ensures { (limits : Limits) (more : Text) (r : Rule) (head_only : Bool) → 0 < limits.head
        → IsRefused limits [] more r head_only → ⊥ }
{}

/// The bytes begin with at most one head.
pub fn one_head_law()
    ensures { (limits : Limits) (b more : Text) (f g : Facts) → IsHeadAt limits b f
        → IsHeadAt limits (b ++ more) g → f ≡ g }
{}

/// The first bytes of a request tell whether its method is HEAD, and what they told stays so.
pub fn first_bytes_law()
    ensures whole { (limits : Limits) (b : Text) (f : Facts) → IsHeadAt limits b f
        → begins_head b ≡ is_head_only f }
    ensures begun { (limits : Limits) (b more : Text) (f : Facts) → begins_head b ≡ true
        → IsHeadAt limits (b ++ more) f → is_head_only f ≡ true }
{}

/// Bytes are read in only one way, and what follows does not change it: a head is not refused, a
/// refusal is for one rule, and what is unfinished is neither.
pub fn one_reading_law()
    ensures head { (limits : Limits) (b more : Text) (f : Facts) (r : Rule) (head_only : Bool)
        → IsHeadAt limits b f → IsRefusedAt limits (b ++ more) r head_only → ⊥ }
    ensures refused { (limits : Limits) (b more : Text) (f : Facts) (r : Rule) (head_only : Bool)
        → IsRefusedAt limits b r head_only → IsHeadAt limits (b ++ more) f → ⊥ }
    ensures rule { (limits : Limits) (b more : Text) (r q : Rule) (x y : Bool)
        → IsRefusedAt limits b r x → IsRefusedAt limits (b ++ more) q y → (r ≡ q) × (x ≡ y) }
    ensures no_head { (limits : Limits) (b : Text) (f : Facts) → IsUnfinished limits b
        → IsHeadAt limits b f → ⊥ }
    ensures no_rule { (limits : Limits) (b : Text) (r : Rule) (head_only : Bool)
        → IsUnfinished limits b → IsRefusedAt limits b r head_only → ⊥ }
{}
