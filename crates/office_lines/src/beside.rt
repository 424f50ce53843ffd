//! Who looks around beside the lines of a server.

use crate::notice::Watch;
use std::sync::Wait;
use std::sync::atomic::{AtomicU64, Ordering};
use std::time::Duration;

/// How many seconds lie between two looks.
const BETWEEN_LOOKS: u64 = 1;

/// Whether the lines of a server have served all that they serve.
#[derive(Drop)]
pub(crate) struct Over {
    /// 0 as long as they serve, and then 1.
    word: AtomicU64,
}

impl Over {
    /// They serve.
    pub(crate) fn new() -> Over {
        Over {
            word: AtomicU64::new(0),
        }
    }

    /// They have served all. Who waits for it goes on at once.
    pub(crate) fn set(&self) {
        self.word.store(1, Ordering::Relaxed);
        self.word.wake_all();
    }

    /// Waits until they have, or for the time between two looks, and answers whether they have.
    fn wait<R: Wait>(&self, rt: &R) -> bool {
        if self.word.load(Ordering::Relaxed) == 0 {
            self.word
                .park_timeout(rt, 0, Duration::from_secs(BETWEEN_LOOKS));
        }
        self.word.load(Ordering::Relaxed) != 0
    }
}

/// Has a watch look around until the lines have served all.
pub(crate) fn look_around<T: Watch, R: Wait>(rt: &R, watch: &T, over: &Over) {
    for _ in 0..u64::MAX {
        if over.wait(rt) {
            return;
        }
        watch.look(rt);
    }
}
