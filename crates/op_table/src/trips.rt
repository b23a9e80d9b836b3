//! How often the range of a DO is executed.
ghost use Rattle.std.specs.Prelude.{◌≡◌, ◌≢◌, pos};
ghost use Rattle.op_table.specs.Trips.{trip_count};

/// The iteration count of a DO: (last - first + step) / step over whole numbers, cut towards zero, and no less than 0
/// (section 11.10.3). The step isn't 0.
pub fn do_count(first: i32, last: i32, step: i32) -> u64
    requires { step ≢ pos 0 }
    ensures { result ≡ trip_count first last step }
{
    let step = i64::from(step);
    let trips = (i64::from(last) - i64::from(first) + step) / step;
    trips.max(0).unsigned_abs()
}
