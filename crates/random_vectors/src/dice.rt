//! What draws initialization vectors.
ghost use Rattle.std.specs.Prelude.{◌≡◌, ◌+◌, ◌*◌, ◌%◌, ◌^◌, ◌<◌, Option, option_map, IfSome};
ghost use Rattle.random_vectors.specs.Vectors.{Place, vector_at, after_draw};

use rand_chacha::ChaCha20Rng;
use rand_core::SeedableRng;
use rand_core::utils::fill_bytes_via_u32;
use std::marker::Model;

/// What draws initialization vectors. It never fails.
pub trait Dice {
    /// Where it stands in a random stream, if it tells that.
    ghost place: { Self → Option Place };

    /// The next vector.
    fn iv(&mut self) -> [u8; 16]
        ensures vector { IfSome (place self.old) (λ before. result ≡ vector_at before) }
        ensures moved { place self.new ≡ option_map after_draw (place self.old) };
}

/// Draws from a stream of a seed: the same seed and stream give the same vectors, as ChaCha20 makes them. They are as
/// unpredictable as the seed is.
#[derive(Drop)]
pub struct SeedDice {
    seed: [u8; 32],
    stream: u64,
    drawn: u128,
    words: ChaCha20Rng,
}

impl Model for SeedDice {
    ghost use Rattle.std.specs.Prelude.{◌≡◌, ◌*◌, ◌^◌, ◌<◌};
    ghost use Rattle.rand_chacha.specs.ChaCha.{key_of};
    ghost use Rattle.random_vectors.specs.Vectors.{Place};

    ghost Value = { Place };

    ghost view = { λ dice. record { seed = dice.seed; stream = dice.stream; drawn = dice.drawn } };

    ghost invariant = { λ dice. (dice.drawn < 2 ^ 66)
        × (dice.words ≡ record { key = key_of dice.seed; stream = dice.stream; word_pos = 4 * dice.drawn }) };
}

impl SeedDice {
    /// At the start of a stream of a seed.
    pub fn new(seed: [u8; 32], stream: u64) -> SeedDice
        ensures { result ≡ record { seed = seed; stream = stream; drawn = 0 } }
    {
        let mut words = ChaCha20Rng::from_seed(seed);
        words.set_stream(stream);
        SeedDice {
            seed,
            stream,
            drawn: 0,
            words,
        }
    }
}

impl Dice for SeedDice {
    ghost use Rattle.std.specs.Prelude.{Some};

    ghost place = { λ dice. Some dice };

    fn iv(&mut self) -> [u8; 16]
        ensures vector { result ≡ vector_at self.old }
        ensures moved { self.new ≡ after_draw self.old }
    {
        let mut vector = [0; 16];
        fill_bytes_via_u32(&mut self.words, &mut vector);
        self.drawn = (self.drawn + 1) % (1 << 66);
        vector
    }
}
