//! Which PIDs count, and what kind a packet is.

ghost use Rattle.std.specs.Prelude.{◌≡◌, ℕ};
ghost use Rattle.sd_message.specs.EmmJudged.{emm_read};
ghost use Rattle.sd_message.specs.EcmJudged.{ecm_read};
ghost use Rattle.sd_spec.specs.Heard.{hears, heard_emm, heard_ecm, Dropped, Other};
ghost use Rattle.sd_receive.specs.declared.filter.Channel.TheVariants as Channels;

mod kind;

pub use kind::{PacketKind, differ, name_of};
use sd_message::Emm;
use sd_packet::Packet;
use sd_psi::{CAT_PID, Tuning};

/// Which of the PIDs of a receiver that took a CAT a packet is on [this project, docs/FORMATS.md, Receiver].
#[derive(Clone, Copy, PartialEq, Eq)]
pub enum Channel {
    /// PID 1, that of the CAT.
    Cat,
    /// That of entitlements.
    Emm,
    /// That of control messages.
    Ecm,
    /// Another one.
    Other,
}

/// The channel of a packet, where the CAT has these PIDs.
#[inline(always)]
#[tactic(auto, unfolding(sd_spec::specs::Heard::hears))]
pub fn channel_of(tuning: Tuning, packet: &Packet) -> Channel
    ensures cat { result ≡ Channels.Cat → (h number : ℕ) → hears h tuning number packet.now ≡ Dropped }
    ensures emm { result ≡ Channels.Emm → (h number : ℕ) →
        hears h tuning number packet.now ≡ heard_emm (emm_read h packet.now) }
    ensures ecm { result ≡ Channels.Ecm → (h number : ℕ) →
        hears h tuning number packet.now ≡ heard_ecm (ecm_read packet.now) }
    ensures other { result ≡ Channels.Other → (h number : ℕ) →
        hears h tuning number packet.now ≡ Other number packet.now }
{
    match packet.pid() {
        CAT_PID => Channel::Cat,
        pid if pid == tuning.emm => Channel::Emm,
        pid if pid == tuning.ecm => Channel::Ecm,
        _ => Channel::Other,
    }
}
