ghost use Rattle.std.specs.Prelude.{◌≡◌, ◌<◌, ◌≤◌, ◌↔◌, [], ◌∷◌, true, false, IsNone, IfSome, length};
ghost use Rattle.sd_psi.specs.Items.{item_size, items_of, are_whole};

use sd_base::fields;

/// What stands one after the other in tables.
#[derive(Clone, Copy)]
pub enum Kind {
    /// A program of a PAT.
    Program,
    /// A descriptor.
    Descriptor,
    /// A stream of a PMT.
    Stream,
}

/// How long the item is with which the bytes begin, where all of it is there.
pub fn size(kind: Kind, bytes: &[u8]) -> Option<usize>
    ensures none { IsNone result → length bytes.now < item_size kind bytes.now }
    ensures value { IfSome result (λ size. size ≡ item_size kind bytes.now) }
    ensures fits { IfSome result (λ size. size ≤ length bytes.now) }
{
    let size = stated(kind, bytes)?;
    (size <= bytes.len()).then_some(size)
}

// How long it says that it is, where it has room to say it.
#[tactic(auto, unfolding(crate::specs::Items::item_size))]
fn stated(kind: Kind, bytes: &[u8]) -> Option<usize>
    ensures none { IsNone result → length bytes.now < item_size kind bytes.now }
    ensures value { IfSome result (λ size. size ≡ item_size kind bytes.now) }
{
    match kind {
        Kind::Program => Some(4),
        Kind::Descriptor if bytes.len() >= 2 => {
            fields! { bytes; descriptor_length: 8, 8; }
            Some(2 + descriptor_length as usize)
        }
        Kind::Stream if bytes.len() >= 5 => {
            fields! { bytes; es_info_length: 28, 12; }
            Some(5 + es_info_length as usize)
        }
        Kind::Descriptor | Kind::Stream => None,
    }
}

/// Whether items fill the bytes exactly: none is cut off.
#[tactic(auto, using(crate::proofs::Cutting::whole_after, crate::proofs::Cutting::off_after, crate::proofs::Cutting::none_after, crate::proofs::Cutting::some_size))]
pub fn fill(kind: Kind, bytes: &[u8]) -> bool
    ensures { result ≡ are_whole kind bytes.now }
{
    let mut at = 0;
    while at < bytes.len() {
        let Some(size) = size(kind, &bytes[at..]) else {
            return false;
        };
        at += size;
    }
    true
}

/// The first of the items that fill the bytes, and the bytes after it.
#[tactic(auto, using(crate::proofs::Cutting::none_cut, crate::proofs::Cutting::first_off, crate::proofs::Cutting::cut_first, crate::proofs::Cutting::cut_long, crate::proofs::Cutting::cut_rest))]
pub fn first<'a>(kind: Kind, bytes: &'a [u8]) -> Option<(&'a [u8], &'a [u8])>
    requires { are_whole kind bytes.now ≡ true }
    ensures none { IsNone result ↔ (items_of kind bytes.now ≡ []) }
    ensures value { IfSome result (λ cut. items_of kind bytes.now ≡ cut.0.now ∷ items_of kind cut.1.now) }
    ensures length { IfSome result (λ cut. length cut.0.now ≡ item_size kind cut.0.now) }
    ensures rest { IfSome result (λ cut. are_whole kind cut.1.now ≡ true) }
{
    if bytes.is_empty() {
        return None;
    }
    let size = size(kind, bytes).unwrap();
    Some(bytes.split_at(size))
}
