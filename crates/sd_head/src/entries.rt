ghost use Rattle.std.specs.Prelude.{◌≡◌, All, IfOk, map};
ghost use Rattle.sd_tree_keys.specs.Keys.{key_of};
ghost use Rattle.sd_site_cards.specs.SiteFields.{site_fields_of};
ghost use Rattle.sd_cipher.specs.Wrapping.{wrapped as under};
ghost use Rattle.sd_spec.specs.Messages.{entry_of};
ghost use Rattle.sd_head.specs.Crypto.{IsKeyed};

use sd_base::{NoMemory, Steps};
use sd_cipher::wrap;
use sd_message::Entry;
use sd_site_cards::Site;
use sd_tree_keys::{SetName, descend, middle, period_key, root_label, whole_key};
use std::alloc::{AllocError, Global};
use std::sync::ledger::Ledger;

/// The entitlements of these sets in period q.
pub fn entries_of<L: Ledger>(
    alloc: Global,
    site: &Site,
    q: u32,
    sets: &[SetName],
    steps: &mut Steps<L>,
) -> Result<Vec<Entry>, NoMemory>
    requires { All IsKeyed sets.now }
    ensures { IfOk result (λ entries. entries.items ≡ map (entry_of (site_fields_of site.now) q) sets.now) }
{
    Ok(listed(alloc, site, q, sets, steps)?)
}

// `entries_of` with the allocator's error.
#[tactic(auto, using(crate::proofs::Listing::entry_more))]
fn listed<L: Ledger>(
    alloc: Global,
    site: &Site,
    q: u32,
    sets: &[SetName],
    steps: &mut Steps<L>,
) -> Result<Vec<Entry>, AllocError>
    requires { All IsKeyed sets.now }
    ensures { IfOk result (λ entries. entries.items ≡ map (entry_of (site_fields_of site.now) q) sets.now) }
{
    let key = period_key(&site.master, q);
    let mut entries = Vec::new(alloc);
    for name in sets {
        entries.push(entry(&site.master, q, &key, *name, steps))?;
    }
    Ok(entries)
}

// A set, and the key of period q under the set's key.
fn entry<L: Ledger>(
    master: &[u8; 32],
    q: u32,
    period_key: &[u8; 32],
    name: SetName,
    steps: &mut Steps<L>,
) -> Entry
    requires { IsKeyed name }
    ensures name { result.name ≡ name }
    ensures value { result.wrapped ≡ under (key_of master.now name) q period_key.now }
{
    let key = set_key(master, name, steps);
    Entry {
        name,
        wrapped: wrap(&key, u64::from(q), period_key),
    }
}

// The key of a set [Naor, Naor, Lotspiech 2001, 3.2].
#[tactic(auto, unfolding(sd_tree_keys::specs::Keys::key_of, sd_tree_keys::specs::Labels::label_of))]
fn set_key<L: Ledger>(master: &[u8; 32], name: SetName, steps: &mut Steps<L>) -> [u8; 32]
    requires { IsKeyed name }
    ensures { result ≡ key_of master.now name }
{
    match name {
        SetName::Whole => whole_key(master),
        SetName::Diff { i, j } => {
            let label = descend(&root_label(master, i), i, j, steps);
            middle(&label, steps)
        }
    }
}
