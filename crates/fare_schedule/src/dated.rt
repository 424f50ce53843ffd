//! The fare days from which tables count.

ghost use Rattle.std.specs.Prelude.{◌≡◌, ◌≤◌, ℕ, true, length};
ghost use Rattle.fare_schedule.specs.Dated.{place_by, ArePlaced, AreAscending, is_until};
ghost use Rattle.fare_schedule.specs.Dated.{counts_at, IsCountOn};

/// From this fare day on the table at this place counts.
#[derive(Clone, Copy, Debug, PartialEq, Eq)]
pub(crate) struct Dated {
    /// The place of the table, 0 for the first.
    pub(crate) place: usize,
    /// The fare day, in days since 1970-01-01.
    pub(crate) day: i32,
}

impl Dated {
    /// Whether the table counts on this day.
    fn is_until(&self, day: i32) -> bool
        ensures { result ≡ is_until day self.now }
    {
        self.day <= day
    }
}

/// The place of the table in force on a fare day. `recent` is how many revisions are likely to
/// count on it.
pub(crate) fn place_on(dated: &[Dated], recent: usize, day: i32) -> usize
    requires ascending { AreAscending dated.now }
    ensures value { result ≡ place_by 0 dated.now day }
    ensures placed { (last : ℕ) → ArePlaced last dated.now → result ≤ last }
{
    let count = count_on(dated, recent, day);
    if count == 0 {
        0
    } else {
        dated[count - 1].place
    }
}

/// How many revisions count on a fare day: so many as were likely to, or they are counted by
/// halving, since the days ascend.
pub(crate) fn count_on(dated: &[Dated], recent: usize, day: i32) -> usize
    requires ascending { AreAscending dated.now }
    ensures bound { result ≤ length dated.now }
    ensures counted { IsCountOn day dated.now result }
{
    if is_count(dated, recent, day) {
        recent
    } else {
        dated.partition_point(|one| one.is_until(day))
    }
}

/// Whether so many revisions count on a fare day.
fn is_count(dated: &[Dated], count: usize, day: i32) -> bool
    requires ascending { AreAscending dated.now }
    ensures bound { result ≡ true → count ≤ length dated.now }
    ensures counted { result ≡ true → IsCountOn day dated.now count }
{
    if counts(dated, count, day) {
        return false;
    }
    count == 0 || counts(dated, count - 1, day)
}

/// Whether there is a revision at a place, and it counts on a fare day.
fn counts(dated: &[Dated], place: usize, day: i32) -> bool
    ensures { result ≡ counts_at day dated.now place }
{
    match dated.get(place) {
        Some(one) => one.is_until(day),
        None => false,
    }
}
