ghost use Rattle.std.specs.Prelude.{◌≡◌, ◌<◌, ◌++◌, ◌∷◌, [], ℕ, List, None, IfOk, OnOk, get_or, replicate, slice_set};
ghost use Rattle.std.specs.Prelude.{string_bytes, vec_len};
ghost use Rattle.std.specs.List.{flat_map};
ghost use Rattle.sd_packet.specs.Header.{pid_of};
ghost use Rattle.sd_section.specs.Assembled.{Fed, assembler_after, all_lent};
ghost use Rattle.sd_run_streams.specs.TableLines.{section_line};
ghost use Rattle.sd_run_streams.specs.Inspected.{sections_at};
ghost use Rattle.sd_run_streams.specs.Watching.{naming, AreSectionsLearned, IsAssembledFrom, AreIdle, IsInspectedAfter};

use crate::watched::{PIDS, Watched};
use crate::{push_line, table_on};
use sd_base::NoMemory;
use sd_packet::Packet;
use sd_section::Assembler;
use std::alloc::Global;

/// The PIDs that are watched, and what is assembled on each of them.
#[derive(Drop)]
pub struct Assemblies {
    watched: Watched,
    assemblers: Vec<Option<Assembler>>,
    pub ghost places: { vec_len assemblers ≡ 8192 },
}

impl Assemblies {
    /// Before the first packet.
    pub fn new(alloc: Global) -> Result<Assemblies, NoMemory>
        ensures { IfOk result (λ now. IsInspectedAfter [] now.watched.marks.items now.assemblers.items) }
    {
        Ok(Assemblies {
            watched: Watched::new(alloc)?,
            assemblers: no_assemblers(alloc)?,
        })
    }

    /// Puts the lines of the sections that a packet completes after the text.
    pub fn take(
        &mut self,
        alloc: Global,
        number: u64,
        packet: &Packet,
        text: &mut String,
    ) -> Result<(), NoMemory>
        requires { AreIdle self.old.assemblers.items }
        ensures lines { (before : List (List ℕ)) →
            IsInspectedAfter before self.old.watched.marks.items self.old.assemblers.items →
            OnOk result (string_bytes text.new
            ≡ string_bytes text.old
            ++ flat_map (section_line number (pid_of packet.now)) (sections_at packet.now before)) }
        ensures after { (before : List (List ℕ)) →
            IsInspectedAfter before self.old.watched.marks.items self.old.assemblers.items →
            OnOk result (IsInspectedAfter (packet.now ∷ before) self.new.watched.marks.items
            self.new.assemblers.items) }
    {
        let pid = packet.pid();
        if !self.watched.has(pid) {
            return Ok(());
        }
        let mut assembler = self.take_out(alloc, pid)?;
        assembler.feed(packet.unit_start(), packet.counter(), packet.payload());
        show(alloc, number, pid, &mut assembler, &mut self.watched, text)?;
        self.assemblers[usize::from(pid)] = Some(assembler);
        Ok(())
    }

    // Takes the assembler of a PID out of its place.
    fn take_out(&mut self, alloc: Global, pid: u16) -> Result<Assembler, NoMemory>
        requires pid { pid < 8192 }
        requires idle { AreIdle self.old.assemblers.items }
        ensures lent { IfOk result (λ assembler. assembler.waiting ≡ []) }
        ensures place { (packets : List Fed) → IsAssembledFrom packets (get_or self.old.assemblers.items pid None) →
            IfOk result (λ assembler. assembler ≡ all_lent (assembler_after packets)) }
        ensures others { self.new.assemblers.items ≡ slice_set self.old.assemblers.items pid None }
        ensures watched { self.new.watched.marks.items ≡ self.old.watched.marks.items }
    {
        match self.assemblers[usize::from(pid)].take() {
            Some(assembler) => Ok(assembler),
            None => Assembler::new(alloc),
        }
    }
}

// A place for the assembler of each PID.
fn no_assemblers(alloc: Global) -> Result<Vec<Option<Assembler>>, NoMemory>
    ensures { IfOk result (λ places. places.items ≡ replicate 8192 None) }
{
    let Ok(mut places) = Vec::with_capacity(alloc, PIDS) else {
        return Err(NoMemory);
    };
    for _pid in 0..PIDS {
        places.push(None).unwrap();
    }
    Ok(places)
}

// Puts the lines of the sections that an assembler lends after the text, as completed by the packet of this number on
// this PID, and watches the PIDs that they name.
fn show(
    alloc: Global,
    number: u64,
    pid: u16,
    assembler: &mut Assembler,
    watched: &mut Watched,
    text: &mut String,
) -> Result<(), NoMemory>
    ensures lines { OnOk result
        (string_bytes text.new ≡ string_bytes text.old ++ flat_map (section_line number pid) assembler.old.waiting) }
    ensures learned { OnOk result
        (AreSectionsLearned (naming pid assembler.old.waiting) watched.old.marks.items watched.new.marks.items) }
    ensures lent { OnOk result (assembler.new ≡ all_lent assembler.old) }
{
    while let Some(section) = assembler.next() {
        let table = table_on(pid, section);
        push_line(alloc, text, number, pid, &table)?;
        watched.learn(&table);
    }
    Ok(())
}
