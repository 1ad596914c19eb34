use crate::recent::Recent;
use sd_receive::Receiver;
use sd_spec::Tally;

/// A receiver that goes on whatever comes, and what it keeps of the packets that were watched [this project,
/// docs/FORMATS.md, Receiver].
pub struct Watcher {
    // What takes the packets that count.
    pub(crate) receiver: Receiver,
    // The last scrambled packets that counted.
    pub(crate) recent: Recent,
    // The number of packets.
    pub(crate) packets: u64,
    // The packets that don't count.
    pub(crate) tally: Tally,
}

impl Drop for Watcher {
    fn drop(self) {
        let Watcher {
            receiver: _,
            recent: _,
            packets: _,
            tally: _,
        } = self;
    }
}
