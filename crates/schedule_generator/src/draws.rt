//! The draws of a schedule.
ghost use Rattle.std.specs.Prelude.{◌≡◌, ◌<◌};
ghost use Rattle.schedule_generator.specs.Draws.{draw, draws_of, rest};

use rand_chacha::ChaCha8Rng;
use rand_core::SeedableRng;
use rand_core::utils::NextWord;
use std::marker::Model;

// What a schedule's draws are read from.
#[derive(Drop)]
pub(crate) struct Draws {
    words: ChaCha8Rng,
}

impl Model for Draws {
    ghost use Rattle.rand_chacha.specs.ChaCha.{ChaCha};

    ghost Value = { ChaCha };

    ghost view = { λ draws. draws.words };
}

impl Draws {
    // At the first draw of a seed.
    #[tactic(auto, unfolding(crate::specs::Draws::draws_of))]
    pub(crate) fn new(seed: u64) -> Draws
        ensures { result ≡ draws_of seed }
    {
        let mut bytes = [0; 32];
        bytes[..8].copy_from_slice(&seed.to_be_bytes());
        Draws {
            words: ChaCha8Rng::from_seed(bytes),
        }
    }

    // A number below a limit.
    #[tactic(auto, unfolding(crate::specs::Draws::draw, crate::specs::Draws::rest))]
    pub(crate) fn below(&mut self, limit: u32) -> u32
        requires { 0 < limit }
        ensures drawn { result ≡ draw limit self.old }
        ensures rest { self.new ≡ rest self.old }
        ensures below { result < limit }
    {
        self.words.next_word() % limit
    }
}
