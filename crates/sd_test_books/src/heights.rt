use sd_tree_keys::Height;
use std::test::Fail;

/// The height of this number.
pub(crate) fn height(d: u8) -> Result<Height, Fail> {
    Ok(Height::new(d).ok_or("a height is from 1 to 20")?)
}
