//! For whom a side that reads has still to ring.

use crate::bells::Bells;
use am_counter::Told;

/// For whom bells have still to be rung: a side that submits several messages rings once for them all.
#[derive(Drop)]
pub(crate) struct Due {
    /// The connections that were replied to since the last ring.
    pub told: Told,
    /// Whether a file was opened since then.
    pub opened: bool,
}

impl Due {
    /// No bell has to be rung.
    pub(crate) fn new() -> Due {
        Due {
            told: Told::none(),
            opened: false,
        }
    }

    /// Rings them.
    pub(crate) fn ring(&mut self, bells: &Bells) {
        bells.replied(&self.told);
        if self.opened {
            bells.opened();
        }
        self.told = Told::none();
        self.opened = false;
    }
}
