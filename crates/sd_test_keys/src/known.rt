ghost use Rattle.std.specs.Prelude.{◌≡◌};

use sd_site_cards::Site;
use sd_tree_keys::Height;
use std::alloc::Global;
use std::test::Fail;

/// The master secret of the bytes 0 to 31.
pub(crate) fn master() -> [u8; 32] {
    let mut master = [0; 32];
    for i in 0..32u8 {
        master[usize::from(i)] = i;
    }
    master
}

/// The site of this master at a height.
pub(crate) fn site(height: Height) -> Site
    ensures { result.height ≡ height }
{
    Site {
        height,
        master: master(),
        ca: 0x1234,
        emm: 496,
        ecm: 497,
        every: 200,
        cryptos: 2,
        span: 1,
        messages: 1,
        first_word: 0,
        last_word: 4_294_967_295,
        first_period: 0,
    }
}

/// The card of this text with one byte replaced, and cut or lengthened by zeros to this length.
pub(crate) fn altered(
    alloc: Global,
    text: &str,
    at: usize,
    byte: u8,
    len: usize,
) -> Result<Vec<u8>, Fail> {
    let mut bytes = hex::decode(alloc, text).ok().ok_or("it is hexadecimal")?;
    if at < bytes.len() {
        bytes[at] = byte;
    }
    bytes.resize(len, 0)?;
    Ok(bytes)
}
