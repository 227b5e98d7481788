//! Laws of items in rows, each the contract of a function with an empty body.
#![tactic(auto)]

ghost use Rattle.fabric.specs.InOrder.{InOrderOnce, IsRising};
ghost use Rattle.grouped.specs.Rows.{grouped, row_of};
ghost use Rattle.std.specs.Ordering.{nat_cmp, ordering_then};
ghost use Rattle.std.specs.Prelude.{List, [], ◌∷◌, filter, flat_map, map, slice_index, ◌<◌, ◌==◌, ◌≡◌, ℕ};
ghost use Rattle.std.specs.declared.cmp.Ordering.{Ordering};
ghost use Rattle.words.specs.Members.{In};

/// Where items stand beside their own keys, a row is the items of its key, in order.
pub fn row_is_of_its_key<K, X>()
    ensures { (number : K → ℕ) (key : X → ℕ) (keys : List K) (items : List X) → map number keys ≡ map key items
        → (k : ℕ) → row_of number keys items k ≡ filter (λ x. key x == k) items }
{}

/// Items that are in an order are, row by row, in order by their keys and then in that order: a grouping is a stable
/// sort. So groupings by several numbers, the last one first, sort by all of them.
pub fn rows_are_in_order<K, X>()
    ensures { (number : K → ℕ) (key : X → ℕ) (keys : List K) (items : List X) → map number keys ≡ map key items
        → (count : ℕ) → ((x : X) → In items x → key x < count)
        → (cmp : X → X → Ordering) → IsRising cmp items
        → InOrderOnce (λ a b. ordering_then (nat_cmp (key a) (key b)) (cmp a b)) items (flat_map (λ row. row) (grouped number count keys items)) }
{}

/// Three items in order, by keys 1, 0 and 1, meet what the law asks.
pub fn three_items_are_grouped()
    ensures order { IsRising nat_cmp (0 ∷ 1 ∷ 2 ∷ []) }
    ensures keys { (x : ℕ) → In (0 ∷ 1 ∷ 2 ∷ []) x → slice_index (1 ∷ 0 ∷ 1 ∷ []) x < 2 }
    ensures rows { let items : List ℕ = 0 ∷ 1 ∷ 2 ∷ [] in let rows : List (List ℕ) = (1 ∷ []) ∷ (0 ∷ 2 ∷ []) ∷ [] in
        grouped (λ (k : ℕ). k) 2 (1 ∷ 0 ∷ 1 ∷ []) items ≡ rows }
{}
