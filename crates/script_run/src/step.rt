//! The text of `step`: the lines of a script are run in one thread, and their replies and the journals are printed.
ghost use Rattle.std.specs.Prelude.{◌≡◌, ◌≤◌, ◌<◌, ◌++◌, ◌+◌, ◌^◌, [], ◌∷◌, ℕ, List, length, map, IfOk, OnOk};
ghost use Rattle.pcc_script.specs.declared.limits.TheConstants.{MAX_ACTIONS};
ghost use Rattle.std.specs.List.{AllByRecursion, flat_map};
ghost use Rattle.pcc_script.specs.Limits.{IsWithin};
ghost use Rattle.cpc_package.specs.declared.binding.Binding.{Binding};
ghost use Rattle.pcc_setup.specs.Equipment.{ArePlaces};
ghost use Rattle.pcc_setup.specs.SetUps.{IsSetUpOf, Opens};
ghost use Rattle.script_run.specs.Channels.{CanRun, IsEarly, starts_of};
ghost use Rattle.script_run.specs.DeviceChannels.{channels_by};
ghost use Rattle.script_run.specs.ReplyText.{replies_text};
ghost use Rattle.script_run.specs.ScriptRuns.{HasPlaces, IsStepText, channel_journal};
ghost use Rattle.script_run.specs.StepRun.{ask_of, asks_by, step_run, turn_of};

use crate::channel::DeviceChannel;
use crate::channels::OpenedChannels;
use crate::reply::put_outcome;
use cpc_package::Binding;
use pcc_io::NoMemory;
use pcc_journal::put_journal;
use pcc_script::{Actions, Scenario};
use pcc_setup::{SetUp, first_action};
use std::alloc::Global;

// Runs lines from a number on, and puts their replies at the end.
#[tactic(auto, using(crate::proofs::Steps::putting_start, crate::proofs::Steps::putting_more, crate::proofs::Steps::putting_lines_end, crate::proofs::ChannelLists::can_still, crate::proofs::ChannelLists::early_still))]
fn run_lines(
    alloc: Global,
    out: &mut Vec<u8>,
    channels: &mut OpenedChannels,
    cpus: &[Binding],
    first: u64,
    actions: &Actions,
) -> Result<(), NoMemory>
    requires lines { AllByRecursion (CanRun cpus.now (starts_of (channels_by channels.old))) actions.now }
    requires few { length actions.now ≤ MAX_ACTIONS }
    requires low { first < 2 ^ 63 }
    requires early { AllByRecursion (IsEarly 0) (channels_by channels.old) }
    ensures replies { OnOk result (out.new.items
        ≡ out.old.items ++ replies_text first (step_run (asks_by cpus.now actions.now) (channels_by channels.old)).replies) }
    ensures channels { OnOk result ((step_run (asks_by cpus.now actions.now) (channels_by channels.old)).channels ≡ channels_by channels.new) }
{
    for i in 0..actions.len() {
        let outcome = channels.run(alloc, cpus, actions.at(i))?;
        put_outcome(out, first + i as u64, channels.as_slice(), outcome)?;
    }
    Ok(())
}

// Puts the journals at the end, in the order of the lines that opened them.
fn put_journals(out: &mut Vec<u8>, channels: &[DeviceChannel]) -> Result<(), NoMemory>
    ensures { OnOk result (out.new.items ≡ out.old.items ++ flat_map channel_journal (channels_by channels.now)) }
{
    for place in 0..channels.len() {
        let channel = &channels[place];
        put_journal(out, channel.head(), channel.records(), channel.pending())?;
    }
    Ok(())
}

// The bindings of the processors, in the order of their lines.
fn bindings_of(alloc: Global, set_up: &SetUp) -> Result<Vec<Binding>, NoMemory>
    requires { HasPlaces set_up.now }
    ensures { IfOk result (λ v. (cpus : List Binding) → ArePlaces set_up.now.opened cpus set_up.now.places → v.items ≡ cpus) }
{
    let mut cpus = Vec::new(alloc);
    for i in 0..set_up.places.len() {
        let place = set_up.places.at(i);
        let subspace = set_up.opened.at(place.opened as usize);
        cpus.push(*subspace.cpus.at(place.cpu as usize))?;
    }
    Ok(cpus)
}

/// The replies and the journals of a script with this set-up.
pub fn run_text(alloc: Global, scenario: &Scenario, set_up: &SetUp) -> Result<Vec<u8>, NoMemory>
    requires within { IsWithin scenario.now }
    requires set_up { IsSetUpOf scenario.now set_up.now }
    ensures { let opened = set_up.now.opened in
        IfOk result (λ v. (h : Opens scenario.now opened) → IsStepText scenario.now opened h.checked.cpus v.items) }
{
    let mut out = Vec::new(alloc);
    let mut channels = OpenedChannels::open(alloc, scenario, set_up)?;
    let cpus = bindings_of(alloc, set_up)?;
    let first = first_action(scenario);
    run_lines(
        alloc,
        &mut out,
        &mut channels,
        &cpus,
        first,
        &scenario.actions,
    )?;
    put_journals(&mut out, channels.as_slice())?;
    Ok(out)
}
