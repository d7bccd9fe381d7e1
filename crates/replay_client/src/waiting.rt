//! The request that a client waits for.
ghost use Rattle.std.specs.Prelude.{◌≡◌};
ghost use Rattle.sync_model.specs.Worlds.{is_awaited};
ghost use Rattle.replay_messages.specs.Forms.{IsPlainCall};
ghost use Rattle.replay_client.specs.Withdrawn.{withdrawn};

use crate::client::Client;
use sync_model::{Call, Content, Request};

impl Client {
    /// The client waits for the reply to the request that this event made.
    pub fn awaits(&self, event: u32) -> bool
        ensures { result ≡ is_awaited self.now.outstanding event }
    {
        match self.outstanding {
            Some(request) => request == event,
            None => false,
        }
    }

    /// Takes back a request that could not be sent, so that the client is as it was before it made it. It takes no
    /// memory.
    pub fn withdraw(&mut self, request: Request<Content>)
        requires { IsPlainCall request.call }
        ensures { self.new ≡ withdrawn self.old request.call }
    {
        let Request {
            birthday: _birthday,
            call,
        } = request;
        match call {
            Call::Commit(entries) => {
                self.held = entries.into_vec();
                self.outstanding = None;
            }
            Call::Updates(_marks) => {
                self.outstanding = None;
            }
        }
    }
}
