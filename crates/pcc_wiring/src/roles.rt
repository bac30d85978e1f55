//! The registers of a structure, by what they are for.
ghost use Rattle.std.specs.Prelude.{◌≡◌};
ghost use Rattle.pcc_wiring.specs.Roles.{doorbell_alone, extended_roles, roles_of};

use pcc_gas::Gas;
use pcct_table::{Subspace, Type34};

/// A register that is written: the bits that are preserved, and those that are set.
#[derive(Clone, Copy)]
pub struct Written {
    pub gas: Gas,
    pub preserve: u64,
    pub set: u64,
}

/// A register some of whose bits tell something.
#[derive(Clone, Copy)]
pub struct Watched {
    pub gas: Gas,
    pub mask: u64,
}

/// The registers that a structure of some type may have.
#[derive(Clone, Copy)]
pub struct Roles {
    pub doorbell: Written,
    pub acknowledge: Option<Written>,
    pub check: Option<Watched>,
    pub update: Option<Written>,
    pub error: Option<Watched>,
}

fn write_by(gas: Gas, preserve: u64, set: u64) -> Written
    ensures { result ≡ record { gas = gas; preserve = preserve; set = set } }
{
    Written { gas, preserve, set }
}

fn watch_by(gas: Gas, mask: u64) -> Watched
    ensures { result ≡ record { gas = gas; mask = mask } }
{
    Watched { gas, mask }
}

fn doorbell_alone(doorbell: Written) -> Roles
    ensures { result ≡ doorbell_alone doorbell }
{
    Roles {
        doorbell,
        acknowledge: None,
        check: None,
        update: None,
        error: None,
    }
}

fn extended_roles(t: &Type34) -> Roles
    ensures { result ≡ extended_roles t.now }
{
    Roles {
        doorbell: write_by(t.doorbell, t.preserve, t.write),
        acknowledge: Some(write_by(t.ack, t.ack_preserve, t.ack_set)),
        check: Some(watch_by(t.check, t.check_mask)),
        update: Some(write_by(t.update, t.update_preserve, t.update_set)),
        error: Some(watch_by(t.error, t.error_mask)),
    }
}

/// The registers that a structure has by its type.
pub fn roles_of(subspace: &Subspace) -> Roles
    ensures { result ≡ roles_of subspace.now }
{
    match subspace {
        Subspace::Generic(t) => doorbell_alone(write_by(t.doorbell, t.preserve, t.write)),
        Subspace::HwReduced1(t) => doorbell_alone(write_by(t.doorbell, t.preserve, t.write)),
        Subspace::HwReduced2(t) => Roles {
            acknowledge: Some(write_by(t.ack, t.ack_preserve, t.ack_write)),
            ..doorbell_alone(write_by(t.doorbell, t.preserve, t.write))
        },
        Subspace::Initiator(t) | Subspace::Responder(t) => extended_roles(t),
        Subspace::HwRegister(t) => Roles {
            check: Some(watch_by(t.check, t.check_mask)),
            error: Some(watch_by(t.error, t.error_mask)),
            ..doorbell_alone(write_by(t.doorbell, t.preserve, t.write))
        },
        Subspace::Other(_) => doorbell_alone(write_by(subspace.doorbell(), 0, 0)),
    }
}
