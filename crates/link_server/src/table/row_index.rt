//! Under which key the row of a channel stands, found without a look at the other rows.
ghost use Rattle.std.specs.Prelude.{◌≡◌, ◌<◌, ℕ, [], List, OnOk, length, set, slice_get};
ghost use Rattle.net_units.specs.Numbers.{channel_number};
ghost use Rattle.link_server.specs.Index.{IsIndex};

use net_units::{ChanNo, OutOfMemory};
use std::alloc::Global;

// The keys of the rows, by the numbers of their channels.
#[derive(Drop)]
pub(crate) struct RowIndex {
    // What stands here for a channel without a row means nothing.
    pub(crate) keys: Vec<usize>,
}

impl RowIndex {
    // The index of no rows.
    pub(crate) fn new(alloc: Global) -> RowIndex
        ensures { result.keys.items ≡ [] }
    {
        RowIndex {
            keys: Vec::new(alloc),
        }
    }

    // The key that it has for the channel, if any.
    pub(crate) fn key(&self, chan: ChanNo) -> Option<usize>
        ensures { result ≡ slice_get self.now.keys.items (channel_number chan) }
    {
        let key = self.keys.get(chan.get() as usize)?;
        Some(*key)
    }

    // Makes room for the key of the channel's row. What it has stays, an `Err` or not.
    pub(crate) fn reserve(&mut self, chan: ChanNo) -> Result<(), OutOfMemory>
        ensures room { OnOk result (channel_number chan < length self.new.keys.items) }
        ensures leads { (keys channels : List ℕ) → IsIndex self.old.keys.items keys channels → IsIndex self.new.keys.items keys channels }
    {
        let wanted = chan.get() as usize + 1;
        if self.keys.len() < wanted {
            self.keys.resize(wanted, 0)?;
        }
        Ok(())
    }

    // The channel's row stands under this key. Room for it was reserved.
    pub(crate) fn put(&mut self, chan: ChanNo, key: usize)
        requires { channel_number chan < length self.old.keys.items }
        ensures { self.new.keys.items ≡ set self.old.keys.items (channel_number chan) key }
    {
        self.keys[chan.get() as usize] = key;
    }
}
