//! Links are a finite map, in the order of their keys.
ghost use Rattle.std.specs.Prelude.{◌≡◌, ℕ, List, if◌then◌else◌, Some, None};
ghost use Rattle.std.specs.Map.{keys_of};
ghost use Rattle.std.specs.List.Sorted.{IsStrictlySortedBy};
ghost use Rattle.std.specs.Ordering.{is_eq, ordering_then};
ghost use Rattle.std.specs.declared.cmp.Ordering.TheVariants.{Less};
ghost use Rattle.dx_links.specs.LinkMap.{by_bytes, held_at, put_at, key_cmp};
ghost use Rattle.dx_links.specs.declared.key.Key.TheVariants.{Global, Local};

/// After a change its key holds what was put, or nothing where it was taken away, and each other key what it held. Global keys
/// stand before local ones; those by their names, and these by their paths and then by their names.
pub fn links_are_a_map()
    ensures put { (links : _) (k : _) (q : _) (h : _) → held_at q (put_at links k (Some h)) ≡ (if is_eq (key_cmp q k) then Some h else held_at q links) }
    ensures taken { (links : _) (k : _) (q : _) → IsStrictlySortedBy key_cmp (keys_of links) → held_at q (put_at links k None) ≡ (if is_eq (key_cmp q k) then None else held_at q links) }
    ensures globals_first { (n p m : List ℕ) → key_cmp (Global n) (Local p m) ≡ Less }
    ensures globals { (n m : List ℕ) → key_cmp (Global n) (Global m) ≡ by_bytes n m }
    ensures locals { (p n q m : List ℕ) → key_cmp (Local p n) (Local q m) ≡ ordering_then (by_bytes p q) (by_bytes n m) }
{}
