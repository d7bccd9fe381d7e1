//! Taking back the last writes of a store.
ghost use Rattle.std.specs.Prelude.{◌≡◌, ◌-◌, ◌<◌, ◌==◌, if◌then◌else◌, drop};
ghost use Rattle.sync_model.specs.History.{IsBased};
ghost use Rattle.loopback_server.specs.Stores.{history_of, IsIndexed};

use crate::index::set_version;
use crate::store::Store;

// How many keys have a write without one of a key whose version before it was this.
fn keys_without(keys: u64, base: u64) -> u64
    requires { base ≡ 0 → 0 < keys }
    ensures { result ≡ (if base == 0 then keys - 1 else keys) }
{
    if base == 0 { keys - 1 } else { keys }
}

impl Store {
    // Takes back the last write, if there is one.
    fn take_back_last(&mut self)
        requires indexed { IsIndexed self.old }
        requires based { IsBased (history_of self.old) }
        ensures history { history_of self.new ≡ drop 1 (history_of self.old) }
        ensures indexed { IsIndexed self.new }
        ensures based { IsBased (history_of self.new) }
    {
        let Some(write) = self.writes.pop() else {
            return;
        };
        set_version(&mut self.index, write.key, write.base);
        self.keys = keys_without(self.keys, write.base);
    }

    /// Takes back the last writes, as if they had not been made. It takes no memory, and for each time that grows with
    /// the logarithm of the number of keys.
    pub(crate) fn take_back(&mut self, count: usize)
        requires indexed { IsIndexed self.old }
        requires based { IsBased (history_of self.old) }
        ensures history { history_of self.new ≡ drop count (history_of self.old) }
        ensures indexed { IsIndexed self.new }
    {
        for _taken in 0..count {
            self.take_back_last();
        }
    }
}
