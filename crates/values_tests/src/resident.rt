//! How much memory the tests take.

use std::fs;

// How many kilobytes of the process are in memory, if the system says so.
pub(crate) fn resident(rt: &HostRuntime) -> Option<u64> {
    let status = fs::read_to_string(rt, "/proc/self/status").ok()?;
    let mut count = None;
    for line in status.as_str().lines() {
        if let Some(rest) = line.strip_prefix("VmRSS:") {
            count = rest.trim().trim_end_matches(" kB").parse::<u64>().ok();
        }
    }
    count
}
