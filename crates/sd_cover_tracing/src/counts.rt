ghost use Rattle.std.specs.Prelude.{◌≡◌, ℕ, ◌+◌, ◌-◌, ◌^◌, ◌<◌, ◌≤◌, ◌⊎◌, ◌↔◌, ◌==◌, if◌then◌else◌, max};
ghost use Rattle.std.specs.Prelude.{OnOk, OnErr, IsSome, get_or, vec_len};
ghost use Rattle.std.specs.FinMap as map;
ghost use Rattle.sd_cover_tracing.specs.declared.counts.TheConstants.{NODES, MOST_ROOM};
ghost use Rattle.sd_cover_tracing.specs.Table.{used};
ghost use Rattle.sd_cover_tracing.specs.Tally.{tally_at, with_count};

use sd_base::{NoMemory, Steps};
use sd_tree_keys::HIGHEST;
use std::alloc::Global;
use std::marker::Model;
use std::sync::ledger::Ledger;

/// The nodes that are counted have numbers below this one, as those of the highest tree have.
pub const NODES: u32 = 2 << HIGHEST;

/// The most room that can be asked for: a whole path for each leaf of the highest tree.
pub const MOST_ROOM: u32 = (HIGHEST as u32 + 1) << HIGHEST;

/// A count for each node, with room for some more nodes that count.
///
/// The table is allocated once, with a place for each node. So no place is ever missing or given back, and room is a
/// number.
#[derive(Drop)]
pub struct Counts {
    table: Vec<u32>,
    room: u32,
}

impl Model for Counts {
    ghost use Rattle.std.specs.Prelude.{ℕ};
    ghost use Rattle.sd_cover_tracing.specs.Tally.{Tally, tally_code};

    ghost Value = { Tally };

    ghost coded = { tally_code };

    ghost use Rattle.sd_cover_tracing.specs.Table.{map_of, IsProbeTable};

    ghost view = { λ c. record { counts = map_of c.table.items; room = c.room } };

    ghost invariant = { λ c. IsProbeTable c.table.items c.room };
}

impl Counts {
    /// No node counts, and there is no room. It takes no memory.
    #[tactic(auto, using(crate::proofs::Tables::no_table, crate::proofs::Tables::table_none))]
    pub fn new(alloc: Global) -> Counts
        ensures value { result.counts ≡ map.empty }
        ensures fits { result.room ≡ 0 }
    {
        Counts {
            table: Vec::new(alloc),
            room: 0,
        }
    }

    /// Reserves room for this number of further nodes.
    #[tactic(auto, using(crate::proofs::Tables::same_counts, crate::proofs::Tables::table_reserved))]
    pub fn reserve(&mut self, more: u32) -> Result<(), NoMemory>
        requires fits { more ≤ MOST_ROOM }
        ensures value { self.new.counts ≡ self.old.counts }
        ensures ok { OnOk result (self.new.room ≡ max self.old.room more) }
        ensures unchanged { OnErr result (self.new.room ≡ self.old.room) }
    {
        make(&mut self.table)?;
        self.room = self.room.max(more);
        Ok(())
    }

    /// The count of node v, by one visit. It takes no memory.
    #[tactic(auto, using(crate::proofs::Tables::count_in_table, crate::proofs::Tables::in_map_counts))]
    pub fn get<L: Ledger>(&self, v: u32, steps: &mut Steps<L>) -> u32
        requires low { 1 ≤ v }
        requires high { v < NODES }
        ensures value { result ≡ tally_at self.now.counts v }
        ensures some { IsSome (map.get self.now.counts v) ↔ (0 < result) }
        ensures steps { steps.new ≡ steps.old + 1 }
    {
        visit(&self.table, v, steps)
    }

    /// Adds one to the count of node v, by one visit. It takes no memory.
    #[tactic(auto, using(crate::proofs::Tables::count_in_table))]
    pub fn raise<L: Ledger>(&mut self, v: u32, steps: &mut Steps<L>)
        requires low { 1 ≤ v }
        requires high { v < NODES }
        requires fits { tally_at self.old.counts v < 2 ^ 32 - 1 }
        requires room { (0 < tally_at self.old.counts v) ⊎ (0 < self.old.room) }
        ensures value { self.new.counts ≡ with_count self.old.counts v (tally_at self.old.counts v + 1) }
        ensures fits { self.new.room ≡ (if tally_at self.old.counts v == 0 then self.old.room - 1 else self.old.room) }
        ensures steps { steps.new ≡ steps.old + 1 }
    {
        let count = visit(&self.table, v, steps);
        self.room -= u32::from(count == 0);
        self.table[v as usize] = count + 1;
    }

    /// Takes one from the count of node v, by one visit. It takes no memory.
    #[tactic(auto, using(crate::proofs::Tables::count_in_table, crate::proofs::Tables::counted_within))]
    pub fn lower<L: Ledger>(&mut self, v: u32, steps: &mut Steps<L>)
        requires low { 1 ≤ v }
        requires high { v < NODES }
        requires some { 0 < tally_at self.old.counts v }
        ensures value { self.new.counts ≡ with_count self.old.counts v (tally_at self.old.counts v - 1) }
        ensures fits { self.new.room ≡ (if tally_at self.old.counts v == 1 then self.old.room + 1 else self.old.room) }
        ensures steps { steps.new ≡ steps.old + 1 }
    {
        let count = visit(&self.table, v, steps);
        self.room += u32::from(count == 1);
        self.table[v as usize] = count - 1;
    }
}

// Makes the table where it isn't there yet.
fn make(table: &mut Vec<u32>) -> Result<(), NoMemory>
    requires size { (vec_len table.old ≡ NODES) ⊎ (vec_len table.old ≡ 0) }
    ensures made { OnOk result (vec_len table.new ≡ NODES) }
    ensures counts { (q : ℕ) → get_or table.new.items q 0 ≡ get_or table.old.items q 0 }
    ensures used { used table.new.items ≡ used table.old.items }
    ensures unchanged { OnErr result (table.new.items ≡ table.old.items) }
{
    if table.is_empty() {
        table.resize(NODES as usize, 0)?;
    }
    Ok(())
}

// The number at the node's place, 0 where there is no table: one visit.
fn visit<L: Ledger>(table: &[u32], v: u32, steps: &mut Steps<L>) -> u32
    ensures value { result ≡ get_or table.now v 0 }
    ensures steps { steps.new ≡ steps.old + 1 }
{
    steps.tick();
    table.get(v as usize).copied().unwrap_or(0)
}
