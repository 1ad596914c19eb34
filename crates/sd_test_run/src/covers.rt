use crate::rows::{ALL, is_covered};
use sd_test_texts::SITE;
use std::alloc::{AllocError, Global};

/// Whether node v is at or above a leaf of a tree of height d.
fn is_above(d: u32, leaf: u32, v: u32) -> bool {
    for k in 0..=d {
        if leaf.wrapping_shr(k) == v {
            return true;
        }
    }
    false
}

/// Whether node v of a tree of height d is at or above one of these leaves, which are the bits of a number.
fn is_in_tree(d: u32, leaves: u32, v: u32) -> bool {
    let first = 1u32.wrapping_shl(d);
    for u in 0..first {
        if leaves.wrapping_shr(u) & 1 == 1 && is_above(d, first | u, v) {
            return true;
        }
    }
    false
}

/// Where the chain of nodes with one child in the tree of these leaves ends that begins at v.
fn end_of(d: u32, leaves: u32, v: u32) -> u32 {
    let mut end = v;
    for _level in 0..d {
        let left = end << 1;
        let right = left | 1;
        match (is_in_tree(d, leaves, left), is_in_tree(d, leaves, right)) {
            (true, false) => end = left,
            (false, true) => end = right,
            _ => {}
        }
    }
    end
}

/// The lines of the chain cover where these leaves are revoked, read off its definition.
fn plain_cover(alloc: Global, d: u32, leaves: u32) -> Result<String, AllocError> {
    if leaves == 0 {
        return String::from_str(alloc, ALL);
    }
    let mut sets = String::new(alloc);
    let mut count = 0u32;
    for v in 1..2u32.wrapping_shl(d) {
        let is_top = is_in_tree(d, leaves, v) && (v == 1 || is_in_tree(d, leaves, v ^ 1));
        let end = end_of(d, leaves, v);
        if is_top && end != v {
            write!(sets, "{v} {end}\n")?;
            count = count.wrapping_add(1);
        }
    }
    let revoked = leaves.count_ones();
    format!(in alloc; "period 0 revoked {revoked} sets {count}\n{sets}")
}

/// The site with a tree of height d.
pub(crate) fn site_of(alloc: Global, d: u32) -> Result<String, AllocError> {
    let rest = SITE.strip_prefix("height 3").unwrap_or(SITE);
    format!(in alloc; "height {d}{rest}")
}

/// The book that revokes these leaves of a tree of height d.
fn book_of(alloc: Global, d: u32, leaves: u32) -> Result<String, AllocError> {
    let mut book = String::new(alloc);
    for u in 0..1u32.wrapping_shl(d) {
        if leaves.wrapping_shr(u) & 1 == 1 {
            write!(book, "revoke {u}\n")?;
        }
    }
    Ok(book)
}

/// Whether `cover` prints the cover of the definition if these leaves are revoked.
fn is_as_defined(alloc: Global, site: &str, d: u32, leaves: u32) -> Result<bool, AllocError> {
    let book = book_of(alloc, d, leaves)?;
    let due = plain_cover(alloc, d, leaves)?;
    is_covered(alloc, site, book.as_bytes(), 65_536, 0, &due)
}

#[test]
fn covers_are_those_of_the_definition(rt: HostRuntime) -> Result<(), AllocError> {
    let alloc = rt.alloc();
    for d in 1..=3u32 {
        let site = site_of(alloc, d)?;
        for leaves in 0..1u32.wrapping_shl(1u32.wrapping_shl(d)) {
            let is_due = is_as_defined(alloc, &site, d, leaves)?;
            assert!(rt; is_due, "{leaves} at height {d}");
        }
    }
    Ok(())
}
