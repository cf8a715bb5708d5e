//! Laws of the definitions, each the contract of a function that does nothing.

ghost use Rattle.std.specs.Prelude.{◌≡◌, ◌↔◌, ℕ, List, Some, true};
ghost use Rattle.reg_names.specs.Names.{IsPathOf, canon, is_name, name_at};
ghost use Rattle.reg_names.specs.Patterns.{Covers, is_pattern};
ghost use Rattle.reg_names.specs.Ranges.{is_within, range_of};

/// A name is in the range of a pattern exactly when the pattern covers it.
pub fn range_law()
    ensures { (p n : List ℕ) → is_pattern p ≡ true → is_name n ≡ true
        → (is_within (range_of p) (canon n) ≡ true) ↔ Covers p n }
{}

/// `name_at` finds a name exactly when the text is the path of that name in lower case.
pub fn path_law()
    ensures { (n path : List ℕ) → (name_at path ≡ Some n) ↔ IsPathOf n path }
{}
