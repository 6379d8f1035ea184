//! The numbers of the live entries, which rise.

ghost use Rattle.std.specs.Prelude.{◌≡◌, ◌≤◌, ◌==◌, not, nat_lt, filter, vec_len, vec_capacity};
ghost use Rattle.std.specs.List.{find};
ghost use Rattle.megaflow_table.specs.Live.{IsIn, IsRising};

/// The least live number above a number.
pub(crate) fn first_above(live: &[u32], number: u32) -> Option<u32>
    requires { IsRising live.now }
    ensures { result ≡ find (λ n. nat_lt number n) live.now }
{
    let place = live.partition_point(|n| *n <= number);
    if place < live.len() {
        Some(live[place])
    } else {
        None
    }
}

/// Takes out a number that is live. It takes no memory.
pub(crate) fn remove_live(live: &mut Vec<u32>, number: u32)
    requires rising { IsRising live.old.items }
    requires is_live { IsIn number live.old.items }
    ensures items { live.new.items ≡ filter (λ n. not (n == number)) live.old.items }
    ensures len { vec_len live.new ≤ vec_len live.old }
    ensures capacity { vec_capacity live.new ≡ vec_capacity live.old }
{
    let Ok(place) = live.binary_search(&number) else {
        unreachable!()
    };
    live.remove(place);
}
