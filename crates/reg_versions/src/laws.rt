//! Laws of the definitions, each on a function that does nothing.

ghost use Rattle.std.specs.Prelude.{◌≡◌, ◌↔◌, ◌++◌, ◌∷◌, ◌<◌, [], ℕ, List, Ok, Some, false, length, slice_get, true};
ghost use Rattle.semver.specs.Parse.{Parts, version_parts};
ghost use Rattle.reg_versions.specs.Precedence.{IsTop, Marked, top_place};
ghost use Rattle.reg_versions.specs.Pushed.{place_after, takes_over};
ghost use Rattle.reg_versions.specs.Remarked.{IsRemarked};
ghost use Rattle.reg_versions.specs.Versions.{IsVersionOf, IsVersionText, is_version};

/// `Release::parse` accepts exactly what the grammar of SemVer 2.0.0 allows, and reads the numbers,
/// the pre-release and the build metadata from which the grammar makes the text.
pub fn versions_are_the_grammar(text: &str)
    ensures accepted { (is_version text.now ≡ true) ↔ IsVersionText text.now }
    ensures read { (parts : Parts) → (version_parts text.now ≡ Ok parts)
        ↔ IsVersionOf text.now parts }
{}

/// The place of the top, found by going through the list, is the defined one. A list that is not
/// empty has a top, and a release alone is it.
pub fn top_law()
    ensures place { (l : List Marked) (i : ℕ) → (top_place l ≡ Some i) ↔ IsTop l i }
    ensures there { (x : Marked) (l : List Marked) → (i : ℕ) × IsTop (x ∷ l) i }
    ensures alone { (x : Marked) → IsTop (x ∷ []) 0 }
{}

/// The top of a list with one more release is the old top or the new one, by these two alone.
pub fn pushed_law()
    ensures { (l : List Marked) (i : ℕ) (b x : Marked) → IsTop l i → slice_get l i ≡ Some b
        → IsTop (l ++ x ∷ []) (place_after (takes_over b x) (length l) i) }
{}

/// The top once the mark of one release is changed, by the old top and this one alone, except where
/// the old top is yanked. Of two that follow one another, `takes_over` tells which it is.
pub fn remarked_law()
    ensures yanked { (l m : List Marked) (k i : ℕ) (p : Parts) → IsTop l i
        → IsRemarked l m k p true → (k ≡ i → ⊥) → IsTop m i }
    ensures again { (l m : List Marked) (k : ℕ) (p : Parts) → IsTop l k
        → IsRemarked l m k p false → IsTop m k }
    ensures earlier { (l m : List Marked) (k i : ℕ) (p : Parts) (b : Marked) → IsTop l i
        → slice_get l i ≡ Some b → IsRemarked l m k p false → k < i
        → IsTop m (place_after (takes_over (p, false) b) i k) }
    ensures later { (l m : List Marked) (k i : ℕ) (p : Parts) (b : Marked) → IsTop l i
        → slice_get l i ≡ Some b → IsRemarked l m k p false → i < k
        → IsTop m (place_after (takes_over b (p, false)) k i) }
{}
