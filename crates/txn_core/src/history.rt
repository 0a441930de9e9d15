//! The state as a value that sessions take in turn.
ghost use Rattle.std.specs.Prelude.{◌≡◌, length};

use crate::state::State;
use turn_book::History;
use versions::{Turn, Version};

impl History for State {
    type Item = Turn;

    type Origin = Version;

    ghost items = { λ s. s.turns };

    ghost origin = { λ s. s.first };

    ghost number = { λ turn. turn.session.0 };

    fn count(&self) -> u64 {
        self.turns().len() as u64
    }
}
