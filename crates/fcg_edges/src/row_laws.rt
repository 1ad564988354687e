//! Laws of rows of numbers: which list a rising row is, and how many numbers disjoint rows have together.
ghost use Rattle.std.specs.Prelude.{◌≡◌, ◌↔◌, ◌<◌, ◌+◌, ◌||◌, ℕ, List, Bool, true, All, Contains, filter, length};
ghost use Rattle.std.specs.List.{range_with_len};
ghost use Rattle.std.specs.List.Sorted.{IsStrictlyIncreasing};

/// A row of numbers below a bound that rises strictly is the list of the numbers below the bound that it has.
pub fn sorted_rows_are_filters()
    ensures { (n : ℕ) (leads : ℕ → Bool) (row : List ℕ) → IsStrictlyIncreasing row → All (λ b. b < n) row → ((b : ℕ) → b < n → (leads b ≡ true) ↔ Contains row b) → row ≡ filter leads (range_with_len 0 n) }
{}

/// The numbers that pass one of two tests are as many as those that pass the one and those that pass the other, where no
/// number passes both.
pub fn disjoint_rows_add_up()
    ensures { (p q : ℕ → Bool) (ks : List ℕ) → ((k : ℕ) → p k ≡ true → q k ≡ true → ⊥) → length (filter (λ k. p k || q k) ks) ≡ length (filter p ks) + length (filter q ks) }
{}
