//! What holds for publish bodies, whatever the code. The functions do nothing: their contracts are
//! the laws.

ghost use Rattle.std.specs.Prelude.{◌≡◌, ◌≤◌, List, ℕ};
ghost use Rattle.reg_body.specs.Frames.{Accepts, Frame, IsFrame, IsProperPrefix};
ghost use Rattle.reg_body.specs.declared.limits.Limits.{Limits};

/// No publish body is a proper prefix of another.
pub fn prefix_law()
    ensures { (b c : List ℕ) → IsFrame b → IsFrame c → ¬ IsProperPrefix b c }
{}

/// A publish body has one JSON and one archive.
pub fn parts_law()
    ensures json { (b j a k c : List ℕ) → Frame b j a → Frame b k c → j ≡ k }
    ensures archive { (b j a k c : List ℕ) → Frame b j a → Frame b k c → a ≡ c }
{}

/// What is accepted under some limits is accepted under wider ones, with the same parts.
pub fn wider_law()
    ensures accepts { (l m : Limits) (b j a : List ℕ) → l.json ≤ m.json → l.archive ≤ m.archive
        → Accepts l b j a → Accepts m b j a }
    ensures same { (l m : Limits) (b j a k c : List ℕ) → Accepts l b j a → Accepts m b k c
        → (k ≡ j) × (c ≡ a) }
{}
