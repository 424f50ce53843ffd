//! Tables of the same stations.

ghost use Rattle.std.specs.Prelude.{◌≡◌};
ghost use Rattle.fare_schedule.specs.Stations.{have_same_stations};

use fare_table::Fares;

/// Whether two tables have the same station numbers.
pub(crate) fn have_same_stations(one: &Fares, other: &Fares) -> bool
    ensures { result ≡ have_same_stations one.now other.now }
{
    one.has_stations_of(other) && other.has_stations_of(one)
}
