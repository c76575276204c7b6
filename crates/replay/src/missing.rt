//! The missing figure of a trace's last line (01, "Trace program").
ghost use Rattle.std.specs.Prelude.{◌≡◌, if◌then◌else◌};
ghost use Rattle.rings.specs.View.{RingWf, list_of, sound_gaps};
ghost use Rattle.replay.specs.Missing.{missing_figure};

use rings::gaps::{Gaps, MAX_GAPS};
use rings::ring::Ring;

/// The missing figure of a list of gaps that is in order.
fn sum_of(mut left: Ring<MAX_GAPS>) -> u64
    requires { RingWf left }
    ensures { result ≡ missing_figure (list_of left) }
{
    let mut sum: u64 = 0;
    while let Some(gap) = left.front() {
        sum = sum.saturating_add(gap.end.0.saturating_sub(gap.from.0));
        left.pop_front();
    }
    sum
}

/// The missing figure: the sum of the gap lengths; of a record out of order none.
pub fn missing_in(gaps: Gaps) -> u64
    ensures { result ≡ (if sound_gaps gaps then missing_figure (list_of gaps.missing) else 0) }
{
    if !gaps.sound() {
        return 0;
    }
    sum_of(gaps.missing)
}
