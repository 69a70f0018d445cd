//! Laws of the definitions, each as a function that does nothing and ensures it.
ghost use Rattle.std.specs.Prelude.{◌≡◌, ◌<◌, ◌+ℤ◌, ◌≤ℤ◌, List, ℕ, ℤ, length, All};
ghost use Rattle.std.specs.List.{Contains};
ghost use Rattle.std.specs.List.Sorted.{IsStrictlyIncreasing};
ghost use Rattle.dx_base.specs.Array.{product, cells, indices_of, point_number, offset, corner_numbers};
ghost use Rattle.dx_arrays.specs.Laws.{IsPoint, IsCorner};
ghost use Rattle.dx_arrays.specs.Reach.{lowest_offset, highest_offset};

/// The points of a grid and the numbers below their product say each other, and the last index varies fastest.
pub fn point_law()
    ensures point { (cs : List ℕ) (i : ℕ) → i < product cs → IsPoint cs (indices_of cs i) }
    ensures number { (cs : List ℕ) (i : ℕ) → i < product cs → point_number cs (indices_of cs i) ≡ i }
    ensures indices { (cs is : List ℕ) → IsPoint cs is → indices_of cs (point_number cs is) ≡ is }
    ensures below { (cs is : List ℕ) → IsPoint cs is → point_number cs is < product cs }
{}

/// The numbers of a cell's corners ascend, each is the number of a corner point of the cell, and each corner point,
/// which is a point of the grid, has its number among them.
pub fn cell_law()
    ensures ascending { (cs : List ℕ) (i : ℕ) → i < product (cells cs) → IsStrictlyIncreasing (corner_numbers cs (indices_of (cells cs) i)) }
    ensures corner { (cs : List ℕ) (i n : ℕ) → i < product (cells cs) → Contains (corner_numbers cs (indices_of (cells cs) i)) n → (is : List ℕ) × IsCorner (indices_of (cells cs) i) is × (point_number cs is ≡ n) }
    ensures every { (cs : List ℕ) (i : ℕ) (is : List ℕ) → i < product (cells cs) → IsCorner (indices_of (cells cs) i) is → Contains (corner_numbers cs (indices_of (cells cs) i)) (point_number cs is) }
    ensures point { (cs : List ℕ) (i : ℕ) (is : List ℕ) → i < product (cells cs) → IsCorner (indices_of (cells cs) i) is → IsPoint cs is }
{}

/// In each place some point of a grid lies as low as the sum of the least that each dimension adds, some lies as high
/// as the sum of the most, and none lies beyond. So the range of all points is decided from these two.
pub fn reach_law()
    ensures lowest { (n : ℕ) (cs : List ℕ) (ds : List ℤ) (place : ℕ) → All (λ c. 0 < c) cs → (i : ℕ) × (i < product cs) × (offset n (indices_of cs i) ds place ≡ lowest_offset n cs ds place) }
    ensures highest { (n : ℕ) (cs : List ℕ) (ds : List ℤ) (place : ℕ) → All (λ c. 0 < c) cs → (i : ℕ) × (i < product cs) × (offset n (indices_of cs i) ds place ≡ highest_offset n cs ds place) }
    ensures not_below { (n : ℕ) (cs : List ℕ) (ds : List ℤ) (i place : ℕ) → All (λ c. 0 < c) cs → lowest_offset n cs ds place ≤ℤ offset n (indices_of cs i) ds place }
    ensures not_above { (n : ℕ) (cs : List ℕ) (ds : List ℤ) (i place : ℕ) → All (λ c. 0 < c) cs → offset n (indices_of cs i) ds place ≤ℤ highest_offset n cs ds place }
{}
