//! The laws of lists of parts: what a name finds, the order of names, and what stays where a part is put, taken out or
//! replaced. They are of the trees alone; the objects stand on them.
#![tactic(auto)]

ghost use Rattle.std.specs.Prelude.{◌≡◌, ◌≢◌, ℕ, List, Some, None, IsTrue};
ghost use Rattle.dx_base.specs.Object.{Tree, PartList};
ghost use Rattle.dx_base.specs.ObjectNames.{find, put, without};
ghost use Rattle.dx_base.specs.ObjectLimits.{differ};

/// Where an object is put under a name, the name finds it, and each other name finds what it found before. Where the
/// part of a name is taken out and names differ, the name finds nothing, and each other name finds what it found
/// before.
pub fn component_law()
    ensures put { (n : List ℕ) (t : Tree) (ps : PartList) → find n (put n t ps) ≡ Some t }
    ensures beside { (m n : List ℕ) (t : Tree) (ps : PartList) → m ≢ n → find m (put n t ps) ≡ find m ps }
    ensures taken { (n : List ℕ) (ps : PartList) → IsTrue (differ ps) → find n (without n ps) ≡ None }
    ensures left { (m n : List ℕ) (ps : PartList) → m ≢ n → find m (without n ps) ≡ find m ps }
{}
