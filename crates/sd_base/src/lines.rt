ghost use Rattle.std.specs.Prelude.{◌≡◌, ◌<◌, ◌↔◌, [], ◌∷◌, length, IsNone, IfSome, option_map};
ghost use Rattle.sd_base.specs.Lines.{cut_at_space, lines_of};

use memchr::memchr;

const LINE_FEED: u8 = b'\n';

const SPACE: u8 = b' ';

/// The first line and what stands after its line feed, or `None` where no byte is left.
pub fn next_line(bytes: &[u8]) -> Option<(&[u8], &[u8])>
    ensures none { IsNone result ↔ (bytes.now ≡ []) }
    ensures first { IfSome result (λ cut. lines_of bytes.now ≡ cut.0.now ∷ lines_of cut.1.now) }
    ensures shorter { IfSome result (λ cut. length cut.1.now < length bytes.now) }
{
    if bytes.is_empty() {
        return None;
    }
    match memchr(LINE_FEED, bytes) {
        Some(end) => Some((&bytes[..end], &bytes[end + 1..])),
        None => Some((bytes, &[])),
    }
}

/// What stands before the first space, and after it, or `None` without a space.
#[tactic(auto, using(crate::proofs::Spaces::cut_there, crate::proofs::Spaces::no_cut, crate::proofs::Cuts::to_the_end))]
pub fn cut_at_space(text: &[u8]) -> Option<(&[u8], &[u8])>
    ensures { option_map (λ cut. (cut.0.now, cut.1.now)) result ≡ cut_at_space text.now }
{
    let space = memchr(SPACE, text)?;
    Some((&text[..space], &text[space + 1..]))
}
