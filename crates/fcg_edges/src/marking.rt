//! Marks of nodes, and rows of numbers each once.
ghost use Rattle.std.specs.Prelude.{◌≡◌, ◌<◌, ◌&&◌, ℕ, All, length, not};
ghost use Rattle.std.specs.List.Sorted.{IsStrictlyIncreasing};
ghost use Rattle.fcg_edges.specs.Rows.{has};
ghost use Rattle.fcg_edges.specs.Internal.Making.{AreMarkedBy, AreSorted, count_fresh, met};

// Whether a node has no mark of a turn.
fn is_unmarked(marks: &[u32], turn: u32, b: u32) -> bool
    ensures { result ≡ not (met marks.now turn b) }
{
    !((b as usize) < marks.len() && marks[b as usize] == turn)
}

// Marks the nodes of a list, and says how many had no mark of this turn.
pub(crate) fn mark_list(marks: &mut [u32], list: &[u32], turn: u32) -> usize
    requires below { All (λ b. b < length marks.old) list.now }
    requires rise { IsStrictlyIncreasing list.now }
    ensures marked { AreMarkedBy turn (has list.now) marks.old marks.new }
    ensures fresh { result ≡ count_fresh marks.old turn list.now }
{
    let mut fresh = 0usize;
    for b in list {
        if marks[*b as usize] != turn {
            marks[*b as usize] = turn;
            fresh += 1;
        }
    }
    fresh
}

// Sorts numbers, and drops repeats.
pub(crate) fn sort_distinct(numbers: &mut Vec<u32>)
    ensures { AreSorted numbers.old.items numbers.new.items }
{
    numbers.sort_unstable();
    numbers.dedup();
}

// Drops the nodes that have the mark of a turn and repeats, and sorts the others.
pub(crate) fn keep_unmarked(numbers: &mut Vec<u32>, marks: &[u32], turn: u32)
    ensures rise { IsStrictlyIncreasing numbers.new.items }
    ensures same { (b : ℕ) → has numbers.new.items b ≡ (has numbers.old.items b && not (met marks.now turn b)) }
{
    numbers.retain(|b| is_unmarked(marks, turn, *b));
    sort_distinct(numbers);
}
