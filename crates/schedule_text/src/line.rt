use sync_model::Event;
use wire_fields::Octets;

/// What a line of a schedule says.
#[derive(Debug, Drop)]
pub enum Line {
    /// How many clients there are.
    Clients(u32),
    /// The seed of their random numbers.
    Seed(u64),
    /// A passphrase.
    Pass(Octets),
    /// The next thing that happens.
    Event(Event),
}
