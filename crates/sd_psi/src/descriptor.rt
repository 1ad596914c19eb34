ghost use Rattle.std.specs.Prelude.{◌≡◌, ◌<◌, ◌↔◌, [], ◌∷◌, true, false, IsNone, IfSome};
ghost use Rattle.sd_psi.specs.Tables.{descriptors_of, are_descriptors, tag_of, content_of, IsDescriptor};
ghost use Rattle.sd_psi.specs.Access.{is_ca, system_of, ca_pid_of, private_data};

use crate::items::{Kind, first};
use sd_base::fields;

/// descriptor_tag of a CA_descriptor (ISO/IEC 13818-1, 2.6.1).
pub const CA_TAG: u8 = 9;

/// A descriptor (ISO/IEC 13818-1, 2.6).
#[derive(Clone, Copy)]
pub struct Descriptor<'a> {
    pub(crate) bytes: &'a [u8],
    pub ghost whole: { IsDescriptor bytes.now },
}

impl<'a> Descriptor<'a> {
    /// descriptor_tag.
    #[tactic(auto, unfolding(crate::specs::Items::item_size))]
    pub fn tag(&self) -> u8
        ensures { result ≡ tag_of self.now.bytes.now }
    {
        fields! { self.bytes; descriptor_tag: 0, 8; }
        descriptor_tag as u8
    }

    /// The bytes after descriptor_length.
    #[tactic(auto, unfolding(crate::specs::Items::item_size))]
    pub fn body(&self) -> &'a [u8]
        ensures { result.now ≡ content_of self.now.bytes.now }
    {
        &self.bytes[2..]
    }

    /// The CA_descriptor that this one is, where CA_system_ID and CA_PID are there.
    #[tactic(auto, unfolding(crate::specs::Access::is_ca))]
    pub fn ca(&self) -> Option<CaDescriptor<'a>>
        ensures none { IsNone result ↔ (is_ca self.now.bytes.now ≡ false) }
        ensures value { IfSome result (λ ca. ca.bytes.now ≡ self.now.bytes.now) }
    {
        if self.tag() == CA_TAG && self.body().len() >= 4 {
            Some(CaDescriptor { bytes: self.bytes })
        } else {
            None
        }
    }
}

/// A CA_descriptor (ISO/IEC 13818-1, 2.6.16).
#[derive(Clone, Copy)]
pub struct CaDescriptor<'a> {
    bytes: &'a [u8],
    pub ghost form: { is_ca bytes.now ≡ true },
}

impl<'a> CaDescriptor<'a> {
    /// CA_system_ID.
    #[tactic(auto, using(crate::proofs::OurCat::ca_is_long))]
    pub fn system(&self) -> u16
        ensures { result ≡ system_of self.now.bytes.now }
    {
        fields! { self.bytes; ca_system_id: 16, 16; }
        ca_system_id as u16
    }

    /// CA_PID.
    #[tactic(auto, using(crate::proofs::OurCat::ca_is_long))]
    pub fn pid(&self) -> u16
        ensures value { result ≡ ca_pid_of self.now.bytes.now }
        ensures fits { result < 8192 }
    {
        fields! { self.bytes; ca_pid: 35, 13; }
        ca_pid as u16
    }

    /// The bytes after CA_PID.
    #[tactic(auto, using(crate::proofs::OurCat::ca_is_long))]
    pub fn private(&self) -> &'a [u8]
        ensures { result.now ≡ private_data self.now.bytes.now }
    {
        &self.bytes[6..]
    }
}

/// The descriptors that fill some bytes, one after the other.
#[derive(Clone, Copy)]
pub struct Descriptors<'a> {
    bytes: &'a [u8],
    pub ghost whole: { are_descriptors bytes.now ≡ true },
}

impl<'a> Descriptors<'a> {
    // Those that fill these bytes.
    pub(crate) fn of(bytes: &'a [u8]) -> Descriptors<'a>
        requires { are_descriptors bytes.now ≡ true }
        ensures { result.bytes.now ≡ bytes.now }
    {
        Descriptors { bytes }
    }

    /// The next descriptor.
    pub fn next(&mut self) -> Option<Descriptor<'a>>
        ensures none { IsNone result ↔ (descriptors_of self.old.bytes.now ≡ []) }
        ensures value { IfSome result (λ descriptor.
            descriptors_of self.old.bytes.now ≡ descriptor.bytes.now ∷ descriptors_of self.new.bytes.now) }
        ensures unchanged { IsNone result → self.new.bytes.now ≡ self.old.bytes.now }
    {
        let (bytes, rest) = first(Kind::Descriptor, self.bytes)?;
        self.bytes = rest;
        Some(Descriptor { bytes })
    }
}
