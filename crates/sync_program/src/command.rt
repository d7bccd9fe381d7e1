//! The commands, and the words that name them.
ghost use Rattle.std.specs.Prelude.{◌≡◌, ◌≢◌, ◌↔◌, List, [], ◌∷◌, IsTrue, MatchOption};
ghost use Rattle.sync_program.specs.Command.{AreUnknown, direction_word, look_word, replay_word, wire_word, words_of};

use message_text::Direction;
use outer_edge::Words;

/// How a command looks into a message.
#[derive(Clone, Copy, Debug, PartialEq, Eq)]
pub enum Look {
    /// Whether the input is a message, and whether its bytes are the canonical ones.
    Check,
    /// What the message has in it.
    Show,
}

/// Looking into a message.
#[derive(Clone, Copy, Debug, PartialEq, Eq)]
pub struct WireCommand {
    pub look: Look,
    pub direction: Direction,
}

/// What the words of a command line say.
#[derive(Clone, Copy, Debug, PartialEq, Eq)]
pub enum Command {
    /// A schedule is replayed.
    Replay,
    Wire(WireCommand),
}

/// The command that these words are, if they are one.
pub fn command_of(words: &Words) -> Option<Command>
    ensures { MatchOption result (AreUnknown words.now) (λ command. words.now ≡ words_of command) }
{
    match words.len() {
        1 => replay_command(words.get(0)?),
        3 => wire_command(words.get(0)?, words.get(1)?, words.get(2)?),
        _ => None,
    }
}

// The command of this one word.
fn replay_command(word: &str) -> Option<Command>
    ensures { MatchOption result (AreUnknown (word.now ∷ [])) (λ command. word.now ∷ [] ≡ words_of command) }
{
    if is_replay(word) {
        Some(Command::Replay)
    } else {
        None
    }
}

// The command of these three words.
fn wire_command(first: &str, second: &str, third: &str) -> Option<Command>
    ensures { MatchOption result (AreUnknown (first.now ∷ second.now ∷ third.now ∷ []))
        (λ command. first.now ∷ second.now ∷ third.now ∷ [] ≡ words_of command) }
{
    if !is_wire(first) {
        return None;
    }
    let look = look_of(second)?;
    let direction = direction_of(third)?;
    Some(Command::Wire(WireCommand { look, direction }))
}

fn look_of(word: &str) -> Option<Look>
    ensures { MatchOption result ((look : Look) → word.now ≢ look_word look) (λ look. word.now ≡ look_word look) }
{
    if is_check(word) {
        Some(Look::Check)
    } else if is_show(word) {
        Some(Look::Show)
    } else {
        None
    }
}

fn direction_of(word: &str) -> Option<Direction>
    ensures { MatchOption result ((direction : Direction) → word.now ≢ direction_word direction)
        (λ direction. word.now ≡ direction_word direction) }
{
    if is_to(word) {
        Some(Direction::ToServer)
    } else if is_from(word) {
        Some(Direction::FromServer)
    } else {
        None
    }
}

#[tactic(auto, unfolding(crate::specs::Command::replay_word))]
fn is_replay(word: &str) -> bool
    ensures { IsTrue result ↔ (word.now ≡ replay_word) }
{
    word == "replay"
}

#[tactic(auto, unfolding(crate::specs::Command::wire_word))]
fn is_wire(word: &str) -> bool
    ensures { IsTrue result ↔ (word.now ≡ wire_word) }
{
    word == "wire"
}

#[tactic(auto, unfolding(crate::specs::Command::look_word))]
fn is_check(word: &str) -> bool
    ensures { IsTrue result ↔ (word.now ≡ look_word Look.Check) }
{
    word == "check"
}

#[tactic(auto, unfolding(crate::specs::Command::look_word))]
fn is_show(word: &str) -> bool
    ensures { IsTrue result ↔ (word.now ≡ look_word Look.Show) }
{
    word == "show"
}

#[tactic(auto, unfolding(crate::specs::Command::direction_word))]
fn is_to(word: &str) -> bool
    ensures { IsTrue result ↔ (word.now ≡ direction_word Direction.ToServer) }
{
    word == "to"
}

#[tactic(auto, unfolding(crate::specs::Command::direction_word))]
fn is_from(word: &str) -> bool
    ensures { IsTrue result ↔ (word.now ≡ direction_word Direction.FromServer) }
{
    word == "from"
}
