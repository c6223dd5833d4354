//! What a trail has at a place.

ghost use Rattle.std.specs.Prelude.{◌≡◌, ◌<◌, length};
ghost use Rattle.propagate.specs.Trails.{IsTrail, entry_at};

use clause_db::ClauseRef;
use propagate::Trail;

// The level of the literal at a place.
pub fn level_at(trail: &Trail, place: u32) -> u32
    requires in_range { place < length trail.now.entries }
    requires trail { IsTrail trail.now }
    ensures level { result ≡ (entry_at trail.now.entries place).level }
{
    trail.level_of(trail.lit(place).var())
}

// The reason of the literal at a place.
pub fn reason_at(trail: &Trail, place: u32) -> Option<ClauseRef>
    requires in_range { place < length trail.now.entries }
    requires trail { IsTrail trail.now }
    ensures reason { result ≡ (entry_at trail.now.entries place).reason }
{
    trail.reason(trail.lit(place).var())
}
