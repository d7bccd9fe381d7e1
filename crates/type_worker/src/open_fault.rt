//! Why something is not opened.
use crate::blocked::BlockCause;
use key_bag::AnyFault;
use sync_specifics::{MessageFault, MessageReason};
use wire_fields::NoMemory;

/// Why specifics are not opened: they do not open, or memory was wanting, which says nothing about them.
#[derive(Debug, Drop)]
pub(crate) enum OpenFault {
    Shut(BlockCause),
    NoMemory,
}

impl From<NoMemory> for OpenFault {
    ghost use Rattle.std.specs.Prelude.{◌≡◌};
    ghost use Rattle.type_worker.specs.declared.open_fault.OpenFault.TheVariants as faults;

    ghost from_gives = { λ _ fault. fault ≡ faults.NoMemory };

    fn from(_error: NoMemory) -> OpenFault {
        OpenFault::NoMemory
    }
}

impl From<AnyFault> for OpenFault {
    ghost use Rattle.std.specs.Prelude.{◌≡◌};
    ghost use Rattle.type_worker.specs.Openings.{shut_by};

    ghost from_gives = { λ error fault. fault ≡ shut_by error };

    fn from(error: AnyFault) -> OpenFault {
        match error {
            AnyFault::NoKey { name } => OpenFault::Shut(BlockCause::NoKey { name }),
            AnyFault::Unseal(fault) => OpenFault::Shut(BlockCause::Unseal(fault)),
            AnyFault::NoMemory => OpenFault::NoMemory,
        }
    }
}

impl From<MessageFault> for OpenFault {
    ghost use Rattle.std.specs.Prelude.{◌≡◌};
    ghost use Rattle.type_worker.specs.Openings.{shut_within};

    ghost from_gives = { λ error fault. fault ≡ shut_within error };

    fn from(error: MessageFault) -> OpenFault {
        match error.reason {
            MessageReason::NoMemory => OpenFault::NoMemory,
            _ => OpenFault::Shut(BlockCause::Content(error)),
        }
    }
}
