//! Chooses a slot of a list for a size. A slot is (start, length) in sectors, and a list is by ascending start.

ghost use Rattle.std.specs.Prelude.{◌≡◌, ◌<◌, ◌≤◌, length, map, AllPairs, IfSome, IsSomeAnd, MatchBool};
ghost use Rattle.std.specs.Prelude.{MatchOption};
ghost use Rattle.gptman.specs.Chosen.{round_down, AreShort, IsBefore, IsBestSlot, IsNoLater, IsGreatest};
ghost use Rattle.gptman.specs.Chosen.{IsNoEarlier, IsTighter};

/// Returns the first slot of at least `size` sectors.
pub(crate) fn first_slot(slots: &[(u64, u64)], size: u64) -> Option<(u64, u64)>
    requires { AllPairs IsBefore slots.now }
    ensures { MatchOption result (AreShort size slots.now) (λ s. IsBestSlot IsNoLater size slots.now s) }
{
    for slot in slots {
        if slot.1 >= size {
            return Some(*slot);
        }
    }
    None
}

/// Returns the last slot of at least `size` sectors.
pub(crate) fn last_slot(slots: &[(u64, u64)], size: u64) -> Option<(u64, u64)>
    requires { AllPairs IsBefore slots.now }
    ensures { MatchOption result (AreShort size slots.now) (λ s. IsBestSlot IsNoEarlier size slots.now s) }
{
    let mut found = None;
    for slot in slots {
        if slot.1 >= size {
            found = Some(*slot);
        }
    }
    found
}

/// Returns the shortest slot of at least `size` sectors, the first if several are as short.
pub(crate) fn shortest_slot(slots: &[(u64, u64)], size: u64) -> Option<(u64, u64)>
    requires { AllPairs IsBefore slots.now }
    ensures { MatchOption result (AreShort size slots.now) (λ s. IsBestSlot IsTighter size slots.now s) }
{
    let mut shortest = None;
    for slot in slots {
        if is_shorter(*slot, shortest, size) {
            shortest = Some(*slot);
        }
    }
    shortest
}

// Reports whether the slot has at least `size` sectors and is shorter than `shortest`.
fn is_shorter(slot: (u64, u64), shortest: Option<(u64, u64)>, size: u64) -> bool
    ensures { MatchBool result (size ≤ slot.1 × IfSome shortest (λ s. slot.1 < s.1))
        (size ≤ slot.1 → IsSomeAnd shortest (λ s. s.1 ≤ slot.1)) }
{
    slot.1 >= size
        && match shortest {
            Some(other) => slot.1 < other.1,
            None => true,
        }
}

/// Returns the largest multiple of `align`, in sectors, that a slot has room for.
pub(crate) fn greatest_size(slots: &[(u64, u64)], align: u64) -> Option<u64>
    requires { 0 < align }
    ensures { MatchOption result (length slots.now ≡ 0)
        (λ m. IsGreatest (map (round_down align) slots.now) m) }
{
    slots.iter().map(|slot| slot.1 - slot.1 % align).max()
}
