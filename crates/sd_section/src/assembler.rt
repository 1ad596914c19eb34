ghost use Rattle.std.specs.Prelude.{◌≡◌, ◌<◌, ◌≤◌, ◌↔◌, List, [], ◌∷◌, length, IfOk, IsNone};
ghost use Rattle.std.specs.Option.{option_map};
ghost use Rattle.std.specs.Borrow.{sem};
ghost use Rattle.std.specs.Io.BufRead.{Rests};
ghost use Rattle.sd_section.specs.Assembled.{Fed, assembler_after, all_lent, next_of, one_lent};
ghost use Rattle.sd_section.specs.OneMore.{assembler_fed_packet};
ghost use Rattle.sd_section.specs.contracts.assembler.Assembler.{the_row};

use crate::holds::Holds;
use crate::limits::LONGEST;
use crate::making::{
    fresh_in, gather, go_on, is_next, is_taken, keep_if, part, store, whole_length,
};
use sd_base::NoMemory;
use std::alloc::Global;
use std::marker::Model;

/// Puts sections together from the packets of one PID (ISO/IEC 13818-1, 2.4.4).
#[derive(Drop)]
pub struct Assembler {
    buffer: Vec<u8>,
    holds: Holds,
    payload: [u8; 184],
    at: usize,
    end: usize,
    counter: Option<u8>,
}

impl Model for Assembler {
    ghost use Rattle.std.specs.Prelude.{◌≤◌, ◌-◌, [], length, slice_range, vec_capacity};
    ghost use Rattle.sd_section.specs.Header.{longest};
    ghost use Rattle.sd_section.specs.Assembled.{Assembling, assembling_code, cut_of};
    ghost use Rattle.sd_section.specs.OneMore.{assembler_state, HasSectionRoom};

    ghost Value = { Assembling };

    ghost coded = { assembling_code };

    ghost view = { λ a. assembler_state a.holds a.buffer.items (cut_of (slice_range a.payload a.at a.end) [])
        a.counter };

    ghost invariant = { λ a. (longest ≤ vec_capacity a.buffer) × (length a.buffer.items ≤ longest) × (a.at ≤ a.end)
        × (a.end ≤ 184)
        × HasSectionRoom a.holds (length a.buffer.items) (a.end - a.at) };
}

impl Assembler {
    /// An assembler that was fed nothing. It takes 4,096 bytes.
    #[tactic(auto, unfolding(crate::specs::Assembled::assembler_after, crate::specs::Assembled::run_after, crate::specs::Assembled::sections_completed_by, crate::specs::Assembled::last_counter, crate::specs::Assembled::cut_from))]
    pub fn new(alloc: Global) -> Result<Assembler, NoMemory>
        ensures after { IfOk result (λ assembler. assembler ≡ assembler_after []) }
        ensures lent { IfOk result (λ assembler. assembler.waiting ≡ []) }
    {
        Ok(Assembler {
            buffer: Vec::with_capacity(alloc, LONGEST)?,
            holds: Holds::Making,
            payload: [0; 184],
            at: 0,
            end: 0,
            counter: None,
        })
    }

    /// Takes one packet: its payload_unit_start_indicator, its continuity_counter, and its payload.
    #[tactic(auto)]
    pub fn feed(&mut self, unit_start: bool, counter: u8, payload: &[u8])
        requires counter { counter < 16 }
        requires payload { length payload.now ≤ 184 }
        requires lent { self.old.waiting ≡ [] }
        ensures { (packets : List Fed) → self.old ≡ all_lent (assembler_after packets) →
            self.new ≡ assembler_after (record {
              unit_start = unit_start;
              counter = counter;
              payload =
                  payload.now;
            } ∷ packets) }
    {
        self.take(unit_start, counter, payload);
    }

    // What a packet does to what is kept.
    fn take(&mut self, unit_start: bool, counter: u8, payload: &[u8])
        requires payload { length payload.now ≤ 184 }
        requires lent { self.old.waiting ≡ [] }
        ensures { self.new ≡
            assembler_fed_packet self.old (record {
              unit_start = unit_start;
              counter = counter;
              payload =
                  payload.now;
            }) }
    {
        if !is_taken(counter, payload, self.counter) {
            return;
        }
        gather(
            &mut self.buffer,
            self.holds,
            &self.payload,
            self.at,
            self.end,
        );
        keep_if(&mut self.buffer, is_next(counter, self.counter));
        let whole = go_on(&mut self.buffer, unit_start, payload);
        let fresh = fresh_in(unit_start, payload);
        store(&mut self.payload, fresh);
        self.at = 0;
        self.end = fresh.len();
        self.holds = Holds::of(whole);
        self.counter = Some(counter);
    }

    /// Lends the next section that the last packet completed.
    pub fn next(&mut self) -> Option<&[u8]>
        ensures value { option_map (λ bytes. bytes.now) result ≡ next_of self.old }
        ensures none { IsNone result ↔ (self.old.waiting ≡ []) }
        ensures* after { sem 𝓛 (Rests the_row self.entry (λ new. new ≡ one_lent self.old)) }
    {
        if self.holds.is_section() {
            self.holds = Holds::Lent;
            return Some(&self.buffer);
        }
        let start = self.at;
        let length = whole_length(part(&self.payload, start, self.end))?;
        self.at += length;
        Some(part(&self.payload, start, start + length))
    }
}
