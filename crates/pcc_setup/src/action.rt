//! Whether the actions of a script name what it opens.
ghost use Rattle.std.specs.Prelude.{◌≡◌, ◌<◌, ◌^◌, None, Some, IfSome, MatchOption, if◌then◌else◌, length, slice_get};
ghost use Rattle.pcc_script.specs.declared.scenario.Line.{Line};
ghost use Rattle.pcc_setup.specs.SetUps.{AllNamed, action_fault, is_bank, opens_bank};
ghost use Rattle.std.specs.List.{list_all};

use pcc_script::{Device, Line, OpenLine, Scenario};

/// Why an action can't be run.
#[derive(Clone, Copy, Debug, PartialEq, Eq)]
pub enum ActionFault {
    /// A `call` line names no subspace that is opened as a Bank.
    NotBank,
    /// A `read` or a `set` line names no processor.
    NoCpu,
}

fn is_bank(device: &Device) -> bool
    ensures { result ≡ is_bank device.now }
{
    matches!(device, Device::Bank)
}

/// Whether each line opens a Bank.
pub fn are_banks(opens: &[OpenLine]) -> bool
    ensures { result ≡ list_all (λ o. is_bank o.device) opens.now }
{
    opens.iter().all(|o| is_bank(&o.device))
}

// Whether some line opens a Bank on the subspace with this ID.
fn opens_bank(opens: &[OpenLine], id: u32) -> bool
    ensures { result ≡ opens_bank id opens.now }
{
    opens
        .iter()
        .any(|o| u32::from(o.id) == id && is_bank(&o.device))
}

// Why an action can't be run, if it can't.
fn action_fault(scenario: &Scenario, action: &Line) -> Option<ActionFault>
    ensures { result ≡ action_fault scenario.now action.now }
{
    match action {
        Line::Call { subspace, .. } => fault_unless(
            opens_bank(scenario.opens.as_slice(), *subspace),
            ActionFault::NotBank,
        ),
        Line::Read { cpu, .. } => fault_unless(
            (*cpu as usize) < scenario.cpus.len(),
            ActionFault::NoCpu,
        ),
        Line::Set { wish, .. } => fault_unless(
            (wish.cpu as usize) < scenario.cpus.len(),
            ActionFault::NoCpu,
        ),
        Line::Wait { .. } => None,
    }
}

fn fault_unless(holds: bool, fault: ActionFault) -> Option<ActionFault>
    ensures { result ≡ (if holds then None else Some fault) }
{
    if holds { None } else { Some(fault) }
}

/// The place of an action, from 0, and its fault.
pub struct WrongAction {
    pub place: usize,
    pub fault: ActionFault,
}

/// The first action that can't be run.
#[tactic(auto, using(crate::proofs::Opens::none_named, crate::proofs::Opens::one_more_named, crate::proofs::Opens::found))]
pub fn first_wrong(scenario: &Scenario) -> Option<WrongAction>
    ensures low { IfSome result (λ wrong. wrong.place < 2 ^ 63) }
    ensures first { MatchOption result (AllNamed scenario.now (length scenario.now.actions)) (λ wrong. (l : Line)
        × (slice_get scenario.now.actions wrong.place ≡ Some l) × AllNamed scenario.now wrong.place × (action_fault scenario.now l ≡ Some wrong.fault)) }
{
    let actions = scenario.actions.as_slice();
    for place in 0..actions.len() {
        if let Some(fault) = action_fault(scenario, &actions[place]) {
            return Some(WrongAction { place, fault });
        }
    }
    None
}
