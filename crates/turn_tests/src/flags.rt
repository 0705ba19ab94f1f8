//! Looks for a flag of another thread.
use std::sync::atomic::{AtomicBool, Ordering};
use std::thread;

/// Looks for the flag until it is set, at most 100,000,000 times. Now and then it lets other threads go on, so that the one that is to set the flag may do so on the same processor.
pub fn looked(flag: &AtomicBool) -> bool {
    for n in 0..100_000_000u32 {
        if flag.load(Ordering::SeqCst) {
            return true;
        }
        if n % 100_000 == 99_999 {
            thread::yield_now();
        }
    }
    false
}
