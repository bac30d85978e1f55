//! The checks of a script's set-up, one after the other.
ghost use Rattle.std.specs.Prelude.{◌≡◌, ◌⊎◌, ◌≤◌, ◌<◌, ◌^◌, List, true, IfOk, MatchResult, length};
ghost use Rattle.std.specs.List.{AllByRecursion};
ghost use Rattle.pcc_bytes.specs.Bytes.{IsBytes};
ghost use Rattle.cpc_package.specs.declared.binding.Binding.{Binding};
ghost use Rattle.pcc_script.specs.declared.scenario.Scenario.{Scenario};
ghost use Rattle.pcct_table.specs.declared.table.Table.{Table};
ghost use Rattle.pcc_setup.specs.declared.opening.Opened.{Opened};
ghost use Rattle.pcc_setup.specs.declared.refusal.Refusal.{Refusal};
ghost use Rattle.pcct_codec.specs.Tables.{TableBytes};
ghost use Rattle.pcc_setup.specs.Equipment.{ArePlaces, CanBegin};
ghost use Rattle.pcc_setup.specs.Openings.{AllOpen, opened_by};
ghost use Rattle.pcc_setup.specs.Processors.{AreBound};
ghost use Rattle.pcc_setup.specs.RefusalText.{IsRefusedFor};
ghost use Rattle.pcc_setup.specs.SetUps.{
  AfterCaps,
  AfterMemories,
  AfterOpens,
  AfterTable,
  ActionRefused,
  AllNamed,
  HasRefusal,
  HasSetUp,
  IfLine,
  IsSetUp,
  IsSetUpOf,
  MeetRefused,
  Opens,
  SetUpRefused,
  first_action,
};
ghost use Rattle.pcc_wiring.specs.Overlaps.{AreApart};
ghost use Rattle.pcc_setup.specs.Openings.{memories_by};
ghost use Rattle.pcc_setup.specs.declared.setup.SetUpError.TheVariants.{NoMemory as Exhausted};

use crate::action::{WrongAction, first_wrong};
use crate::equipment::{check_caps, check_starts};
use crate::opening::{Opened, OpenedList, memories, open_all};
use crate::places::{CpuPlaces, equip_all, places_of};
use crate::processor::bind_all;
use crate::refusal::{InputError, Refusal};
use crate::table::whole_table;
use crate::text::refused_line;
use cpc_package::Binding;
use pcc_io::{Bytes, NoMemory};
use pcc_script::{Opens, Scenario};
use pcc_wiring::opened_apart;
use pcct_table::Table;
use std::alloc::Global;
use thiserror::Error;

/// What a script opens.
#[derive(Drop)]
pub struct SetUp {
    /// One subspace for each `open` line, in their order.
    pub opened: OpenedList,
    /// One place for each `cpu` line, in their order.
    pub places: CpuPlaces,
}

/// Why a script can't be run.
#[derive(Debug, Drop, Error)]
pub enum SetUpError {
    /// The line of the first check that fails, with its line feed.
    #[error("the script is refused")]
    Refused { text: Bytes },
    #[error("memory ran out")]
    NoMemory,
}

impl From<NoMemory> for SetUpError {
    ghost from_gives = { λ _ e. e ≡ Exhausted };

    fn from(_: NoMemory) -> SetUpError {
        SetUpError::NoMemory
    }
}

/// The number of the first action's line, from 1.
pub fn first_action(scenario: &Scenario) -> u64
    ensures number { result ≡ first_action scenario.now }
    ensures low { result < 2 ^ 63 }
{
    let opens = scenario.opens.as_slice();
    let cpus = scenario.cpus.as_slice();
    let caps = scenario.caps.as_slice();
    3 + opens.len() as u64 + cpus.len() as u64 + caps.len() as u64
}

// Checks that the memories of the opened subspaces lie apart.
#[tactic(auto, using(crate::proofs::Checks::first_meeting, crate::proofs::Checks::still_apart))]
fn check_memories(alloc: Global, table: &Table, opens: &Opens) -> Result<(), InputError>
    ensures { MatchResult result (λ ok. AreApart (memories_by table.now opens.now)) (IsRefusedFor (MeetRefused (memories_by table.now opens.now))) }
{
    let memories = memories(alloc, table, opens)?;
    if let Err(found) = opened_apart(&memories) {
        return Err(InputError::Refused(Refusal::Meet(found)));
    }
    Ok(())
}

// Checks that each action names what is opened.
fn check_actions(scenario: &Scenario) -> Result<(), InputError>
    ensures { MatchResult result (λ ok. AllNamed scenario.now (length scenario.now.actions)) (IsRefusedFor (ActionRefused scenario.now)) }
{
    match first_wrong(scenario) {
        Some(WrongAction { place, fault }) => {
            let line = first_action(scenario) + place as u64;
            Err(InputError::Refused(Refusal::Action { line, fault }))
        }
        None => Ok(()),
    }
}

// The checks after the table.
fn with_table(alloc: Global, scenario: &Scenario, table: &Table) -> Result<SetUp, InputError>
    requires few { AllByRecursion (λ bytes. length bytes < 2 ^ 32) scenario.now.cpus }
    requires bytes { TableBytes scenario.now.table table.now }
    ensures { MatchResult result (IsSetUpOf scenario.now) (IsRefusedFor (AfterTable scenario.now table.now)) }
{
    let mut opened = open_all(alloc, table, &scenario.opens)?;
    check_memories(alloc, table, &scenario.opens)?;
    let cpus = bind_all(alloc, &opened, &scenario.cpus)?;
    check_caps(&opened, scenario.caps.as_slice())?;
    check_starts(alloc, &opened, &cpus)?;
    check_actions(scenario)?;
    equip_all(alloc, &mut opened, &cpus, scenario.caps.as_slice())?;
    let places = places_of(alloc, &opened, &cpus)?;
    Ok(SetUp {
        opened: OpenedList::from_vec(opened),
        places,
    })
}

// All checks, with the refusal as a value.
#[tactic(auto, using(crate::proofs::Checks::wrong_table, crate::proofs::Checks::after_table))]
fn checked(alloc: Global, scenario: &Scenario) -> Result<SetUp, InputError>
    requires { AllByRecursion (λ bytes. length bytes < 2 ^ 32) scenario.now.cpus }
    ensures { MatchResult result (IsSetUpOf scenario.now) (IsRefusedFor (SetUpRefused scenario.now)) }
{
    match whole_table(alloc, scenario.table.as_slice()) {
        Ok(table) => with_table(alloc, scenario, &table),
        Err(error) => Err(error),
    }
}

/// Sets up what a script opens: its table is read; each `open` line opens its structure for the operating system to ask; the memories of the opened
/// subspaces lie apart; the package of each processor is bound to the controller that it names, and no two share a register; each cap is on a
/// controller and begins after the earlier ones; each processor is in its range at first; and each action names what is opened. A script that fails
/// a check is refused by the line of the first check that fails. The condition is fewer than 2^32 bytes in each package.
pub fn set_up(alloc: Global, scenario: &Scenario) -> Result<SetUp, SetUpError>
    requires { AllByRecursion (λ bytes. length bytes < 2 ^ 32) scenario.now.cpus }
    ensures { MatchResult result (IsSetUpOf scenario.now) (IfLine (SetUpRefused scenario.now)) }
{
    match checked(alloc, scenario) {
        Ok(set_up) => Ok(set_up),
        Err(InputError::Refused(refusal)) => Err(SetUpError::Refused {
            text: Bytes::from_vec(refused_line(alloc, refusal)?),
        }),
        Err(InputError::NoMemory) => Err(SetUpError::NoMemory),
    }
}

/// Each script whose packages are bytes is set up or refused, by one line: it passes all checks, with one table and one list of opened subspaces, or
/// one refusal reports the first check that fails. A controller can begin on what is opened. It does nothing.
pub fn set_up_laws()
    ensures some { (s : Scenario) → AllByRecursion IsBytes s.cpus → HasSetUp s ⊎ HasRefusal s }
    ensures not_both { (s : Scenario) (t : Table) (r : Refusal) → IsSetUp s t → SetUpRefused s r → ⊥ }
    ensures one_refusal { (s : Scenario) (r q : Refusal) → SetUpRefused s r → SetUpRefused s q → r ≡ q }
    ensures one_table { (s : Scenario) (t u : Table) → IsSetUp s t → IsSetUp s u → t ≡ u }
    ensures one_set_up { (s : Scenario) (opened other : List Opened) → Opens s opened → Opens s other → opened ≡ other }
    ensures controllers { (s : Scenario) (opened : List Opened) → Opens s opened → AllByRecursion CanBegin opened }
    ensures few_caps { (s : Scenario) (opened : List Opened) → Opens s opened → AllByRecursion (λ o. length o.caps ≤ length s.caps) opened }
{}
