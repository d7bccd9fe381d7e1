ghost use Rattle.std.specs.Prelude.{◌≡◌, ◌^◌, ◌<◌, ◌↔◌, [], length, Ok, IsErr, IsOkAnd, IfOk, IfErr};
ghost use Rattle.progress_marker.specs.Tokens.{token_of, version_of, HasBadLength};
ghost use Rattle.progress_marker.specs.declared.mark.Mark.{Mark};

use crate::BadToken;

/// How far into a server's history a client has come: the version of the last change that it has seen.
/// A client that has seen none stands at version 0, the default.
#[derive(Clone, Copy, Debug, Default, PartialEq, Eq, PartialOrd, Ord, Hash)]
pub struct Mark {
    pub version: u64,
}

impl Mark {
    /// The token by which a client tells a server its mark.
    #[tactic(auto, unfolding(crate::specs::Tokens::token_of))]
    pub fn token(&self) -> [u8; 8]
        ensures { result ≡ token_of self.now.version }
    {
        self.version.to_be_bytes()
    }

    /// The mark that a token tells. A client that has no token yet sends an empty one.
    #[tactic(auto, unfolding(crate::specs::Tokens::token_of, crate::specs::Tokens::version_of))]
    pub fn read(token: &[u8]) -> Result<Mark, BadToken>
        ensures version { IfOk result (λ mark. mark.version ≡ version_of token.now) }
        ensures empty { token.now ≡ [] → result ≡ Ok (record { version = 0 }) }
        ensures eight { length token.now ≡ 8 → IsOkAnd result (λ mark. token_of mark.version ≡ token.now) }
        ensures own { (mark : Mark) → mark.version < 2 ^ 64 → token.now ≡ token_of mark.version → result ≡ Ok mark }
        ensures bad { IsErr result ↔ HasBadLength token.now }
        ensures len { IfErr result (λ fault. fault.len ≡ length token.now) }
    {
        if token.is_empty() {
            return Ok(Mark { version: 0 });
        }
        let Ok(bytes) = <[u8; 8]>::try_from(token) else {
            return Err(BadToken {
                len: token.len() as u64,
            });
        };
        Ok(Mark {
            version: u64::from_be_bytes(bytes),
        })
    }
}
