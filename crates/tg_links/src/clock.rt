//! The time by which links and doors count.
use libc::CLOCK_MONOTONIC;
use libc::types::timespec;

/// The milliseconds of a clock that never goes back (`clock_gettime` with `CLOCK_MONOTONIC`, POSIX.1-2017), or 0 where it
/// can't be read, so that nobody is late.
pub fn monotonic_millis() -> u64 {
    let mut time = timespec {
        tv_sec: 0,
        tv_nsec: 0,
    };
    if libc::clock_gettime(CLOCK_MONOTONIC, &mut time) != 0 {
        return 0;
    }
    let secs = u64::try_from(time.tv_sec).unwrap_or(0);
    let nanos = u64::try_from(time.tv_nsec).unwrap_or(0);
    secs.saturating_mul(1_000).saturating_add(nanos / 1_000_000)
}
