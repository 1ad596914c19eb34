//! The broadcasts of a chain are of one channel, so a receiver that stays on follows them.

ghost use Rattle.std.specs.Prelude.{false, List, All};
ghost use Rattle.sd_law_broadcast.specs.Packets.{AreWholePackets};
ghost use Rattle.sd_law_losses.specs.Channel.{AreRunsOf};
ghost use Rattle.sd_law_losses.specs.Switched.{ArePiecesOf};
ghost use Rattle.sd_law_chain.specs.Chain.{Call, HaveOwnSites, IsChain, IsChainOnAir, Link};
ghost use Rattle.sd_law_chain.specs.Heard.{ArrivedBroadcast, TakeTurns, airs_of, arrivals_of, channel_of, numbers_from};

/// Broadcasts of a chain, in any order and with any losses, are broadcasts of one channel with a name each, if each
/// site
/// is for one of them. So are pieces of them, as at a switch to a spare head end and back, if no two pieces of which a
/// receiver hears a message one after the other are of one site.
pub fn chains_are_one_channel()
    ensures whole { (root : Link) (calls : List Call) (heard : List ArrivedBroadcast) → IsChain root calls →
        All (IsChainOnAir root calls) (airs_of heard) → HaveOwnSites (airs_of heard) →
        All (λ one. AreWholePackets one.air.clear) heard →
        AreRunsOf (channel_of root.site) (arrivals_of root calls heard) }
    ensures pieces { (root : Link) (calls : List Call) (heard : List ArrivedBroadcast) → IsChain root calls →
        All (IsChainOnAir root calls) (airs_of heard) → All (λ one. AreWholePackets one.air.clear) heard →
        TakeTurns (numbers_from root calls false heard) →
        ArePiecesOf (channel_of root.site) (arrivals_of root calls heard) }
{}
