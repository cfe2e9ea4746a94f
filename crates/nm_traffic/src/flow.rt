//! The times and the data of a flow.

ghost use Rattle.std.specs.Prelude.{◌≡◌, ◌<◌, ◌≤◌, MatchOption};
ghost use Rattle.nm_traffic.specs.Flow.{flow_time};

use nm_base::Time;
use nm_topology::traffic::Flow;

/// When packet `number` of the flow comes, or `None` if there is none before `stop`.
pub fn time_before(flow: &Flow, stop: Time, number: u64) -> Option<Time>
    ensures { MatchOption result (number < flow.now.count → stop ≤ flow_time flow.now number)
        (λ time. (number < flow.now.count) × (time ≡ flow_time flow.now number) × (time < stop)) }
{
    if number >= flow.count as u64 {
        return None;
    }
    let time = number
        .checked_mul(flow.interval)?
        .checked_add(flow.start.nanoseconds())?;
    if time < stop.nanoseconds() {
        Some(Time::from_nanoseconds(time))
    } else {
        None
    }
}
