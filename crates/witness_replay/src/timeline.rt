//! The rows of a timing in the order of their times.

ghost use Rattle.std.specs.Prelude.{◌≡◌, ◌<◌, ℕ, length};
ghost use Rattle.witness_replay.specs.Timelines.{IsTimeline, moment_at, moment_of, row_met};

use formula_arena::Direction;

/// A row at its true time.
#[derive(Clone, Copy)]
pub struct Moment {
    pub time: i128,
    pub row: usize,
}

/// A timing: the times of its rows, and the rows in the order of these.
#[derive(Clone, Copy)]
pub struct Timeline<'a> {
    pub times: &'a [i128],
    pub moments: &'a [Moment],
}

// Each row at its time, in the order of the log.
fn place_rows(times: &[i128], moments: &mut [Moment])
    requires room { length moments.old ≡ length times.now }
    ensures len { length moments.new ≡ length times.now }
    ensures each { (e : ℕ) → e < length times.now → moment_at moments.new e ≡ moment_of times.now e }
{
    for row in 0..times.len() {
        moments[row] = Moment {
            time: times[row],
            row,
        };
    }
}

/// Writes the rows of a timing in the order of their times. What stands there before plays no part.
pub fn sort_rows(times: &[i128], moments: &mut [Moment])
    requires room { length moments.old ≡ length times.now }
    ensures { IsTimeline times.now moments.new }
{
    place_rows(times, moments);
    moments.sort_unstable_by_key(|moment| moment.time);
}

/// The row at a place, where the rows are met in a direction.
pub fn row_at(direction: Direction, moments: &[Moment], place: usize) -> usize
    requires { place < length moments.now }
    ensures { result ≡ row_met direction moments.now place }
{
    match direction {
        Direction::Ahead => moments[place].row,
        Direction::Behind => moments[moments.len() - 1 - place].row,
    }
}
