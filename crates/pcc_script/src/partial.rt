//! The scenario that grows line by line.
ghost use Rattle.std.specs.Prelude.{◌≡◌, ◌++◌, ◌∷◌, [], ℕ, IfOk};
ghost use Rattle.pcc_script.specs.Rows.{behind, place};
ghost use Rattle.pcc_script.specs.Reading.{Completes, Empty, entry_statement, so_far};

use crate::fault::ScriptKind;
use crate::line::Entry;
use crate::scenario::{Actions, CapLines, Opens, Packages, Picks, Scenario};
use pcc_io::{Bytes, NoMemory};
use std::alloc::Global;

/// The numbers of a `clock` line.
#[derive(Clone, Copy)]
pub struct ClockLine {
    pub start: u64,
    pub step: u64,
}

/// What the lines so far have said.
#[derive(Drop)]
pub struct Partial {
    table: Option<Bytes>,
    clock: Option<ClockLine>,
    opens: Opens,
    cpus: Packages,
    caps: CapLines,
    actions: Actions,
    picks: Option<Picks>,
}

#[tactic(auto, using(crate::proofs::Growing::put_table, crate::proofs::Growing::put_clock, crate::proofs::Growing::put_open, crate::proofs::Growing::put_cpu, crate::proofs::Growing::put_cap, crate::proofs::Growing::put_action, crate::proofs::Growing::put_pick))]
impl Partial {
    pub fn new(alloc: Global) -> Partial
        ensures lines { so_far result ≡ [] }
        ensures empty { (next : ℕ) → Empty next result }
    {
        Partial {
            table: None,
            clock: None,
            opens: Opens::new(alloc),
            cpus: Packages::new(alloc),
            caps: CapLines::new(alloc),
            actions: Actions::new(alloc),
            picks: None,
        }
    }

    /// Puts what a line gives after what the lines before it gave.
    pub fn put(&mut self, entry: Entry) -> Result<(), NoMemory>
        requires { Empty (place (entry_statement entry).word) self.old }
        ensures lines { IfOk result (λ _. so_far self.new ≡ so_far self.old ++ entry_statement entry ∷ []) }
        ensures empty { IfOk result (λ _. Empty (behind (entry_statement entry).word) self.new) }
    {
        match entry {
            Entry::Table(bytes) => {
                self.table = Some(bytes);
                Ok(())
            }
            Entry::Clock { start, step } => {
                self.clock = Some(ClockLine { start, step });
                Ok(())
            }
            Entry::Open(open) => self.opens.push(open),
            Entry::Cpu(bytes) => self.cpus.push(bytes),
            Entry::Cap(cap) => self.caps.push(cap),
            Entry::Action(line) => self.actions.push(line),
            Entry::Picks(letters) => {
                self.picks = Some(letters);
                Ok(())
            }
        }
    }
}

/// The scenario, if nothing follows the last line feed and each line that has to be was there.
#[tactic(auto, using(crate::proofs::Completing::no_table, crate::proofs::Completing::no_clock, crate::proofs::Completing::no_opens, crate::proofs::Completing::all_there))]
pub fn complete(partial: Partial, last: &[u8]) -> Result<Scenario, ScriptKind>
    ensures { Completes result (so_far partial) last.now }
{
    if !last.is_empty() {
        return Err(ScriptKind::Newline);
    }
    let Partial {
        table,
        clock,
        opens,
        cpus,
        caps,
        actions,
        picks,
    } = partial;
    let Some(table) = table else {
        return Err(ScriptKind::Missing);
    };
    let Some(clock) = clock else {
        return Err(ScriptKind::Missing);
    };
    if opens.len() == 0 {
        return Err(ScriptKind::Missing);
    }
    Ok(Scenario {
        table,
        start: clock.start,
        step: clock.step,
        opens,
        cpus,
        caps,
        actions,
        picks,
    })
}
