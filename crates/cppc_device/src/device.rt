//! A controller of performance as a device.
ghost use Rattle.std.specs.Prelude.{◌≡◌, ◌<◌, ◌≤◌, ◌^◌, ℕ, List, IfOk, length, vec_len, MatchResult, Some, None, Err};
ghost use Rattle.pcc_bytes.specs.Bytes.{IsBytes};
ghost use Rattle.cpc_package.specs.Bindings.{AreProcessors};
ghost use Rattle.cppc_device.specs.Devices.{Cppc, after_changes, sampled, written};
ghost use Rattle.cppc_device.specs.Openings.{device_fault, new_device, opening};
ghost use Rattle.cppc_device.specs.States.{cppc_in, cppc_room, cppc_state};
ghost use Rattle.cppc_device.specs.declared.device.DeviceFault.{DeviceFault};
ghost use Rattle.cppc_device.specs.declared.device.DeviceFault.TheVariants.{NoMemory};

use crate::cap::{Cap, cap_order, in_force};
use crate::registers::{sample_all, write_all};
use cpc_package::Binding;
use pcc_bytes::are_bytes;
use pcc_exec::{ExecStatus, Executor};
use std::alloc::{AllocError, Global};
use std::marker::Model;

/// Why there is no such device.
#[derive(Clone, Copy, Debug, PartialEq, Eq)]
pub enum DeviceFault {
    /// The image is longer than the communication space.
    ImageTooLong { len: usize },
    /// The count of a cap isn't above that of the one before.
    CapOrder { index: u32 },
    /// Memory ran out.
    NoMemory,
}

impl From<AllocError> for DeviceFault {
    ghost from_gives = { λ _ fault. fault ≡ NoMemory };

    fn from(_: AllocError) -> DeviceFault {
        DeviceFault::NoMemory
    }
}

/// The registers at first: the image, and zeros after it.
#[tactic(auto, using(crate::proofs::Commands::all_taken))]
pub fn opening(alloc: Global, room: u32, image: &[u8]) -> Result<Vec<u8>, AllocError>
    requires { length image.now ≤ room }
    ensures items { IfOk result (λ registers. registers.items ≡ opening room image.now) }
    ensures bytes { IfOk result (λ registers. IsBytes registers.items) }
    ensures len { IfOk result (λ registers. vec_len registers ≡ room) }
{
    let mut registers = Vec::from_slice(alloc, image)?;
    registers.resize(room as usize, 0)?;
    are_bytes(&registers);
    Ok(registers)
}

/// A controller of the performance of processors, with registers of one communication space.
#[derive(Drop)]
pub struct CppcDevice {
    cpus: Vec<Binding>,
    caps: Vec<Cap>,
    count: u64,
    registers: Vec<u8>,
}

impl Model for CppcDevice {
    ghost use Rattle.std.specs.Prelude.{◌<◌, ◌^◌, vec_len};
    ghost use Rattle.cppc_device.specs.Devices.{Cppc, IsDevice};

    ghost Value = { Cppc };

    ghost view = { λ d. record { cpus = d.cpus.items; caps = d.caps.items; count = d.count; registers = d.registers.items } };

    ghost invariant = { λ d. IsDevice (record { cpus = d.cpus.items; caps = d.caps.items; count = d.count; registers = d.registers.items })
        × (vec_len d.registers < 2 ^ 32) };
}

impl CppcDevice {
    /// The command that reads all registers.
    pub const READ: u32 = 0x00;

    /// The command that takes the registers that were written.
    pub const WRITE: u32 = 0x01;

    /// A controller of processors in a space of room bytes. Its registers begin with the image, and zeros after it.
    pub fn new(
        alloc: Global,
        room: u32,
        image: &[u8],
        cpus: &[Binding],
        caps: &[Cap],
    ) -> Result<CppcDevice, DeviceFault>
        requires processors { AreProcessors room cpus.now }
        requires few { length caps.now < 2 ^ 32 }
        // The first fault is reported, and else the device begins, unless memory runs out.
        ensures fault { (fault : DeviceFault) → device_fault room image.now caps.now ≡ Some fault → result ≡ Err fault }
        ensures opening { device_fault room image.now caps.now ≡ None
            → MatchResult result (λ device. device ≡ new_device room image.now cpus.now caps.now) (λ fault. fault ≡ NoMemory) }
    {
        if image.len() > room as usize {
            return Err(DeviceFault::ImageTooLong { len: image.len() });
        }
        if let Some(index) = cap_order(caps) {
            return Err(DeviceFault::CapOrder { index });
        }
        Ok(CppcDevice {
            cpus: Vec::from_slice(alloc, cpus)?,
            caps: Vec::from_slice(alloc, caps)?,
            count: 0,
            registers: opening(alloc, room, image)?,
        })
    }

    /// Counts what each processor delivers, and gives the registers out.
    fn read_registers(&mut self, space: &mut [u8])
        requires { length space.old ≡ length self.old.registers }
        ensures device { self.new ≡ after_changes self.old (sampled self.old) }
        ensures space { space.new ≡ self.new.registers }
    {
        let cap = in_force(&self.caps, self.count);
        sample_all(&mut self.registers, &self.cpus, cap);
        self.count = self.count.saturating_add(1);
        space.copy_from_slice(&self.registers);
    }

    /// Takes the fields that an operating system writes from a space, and gives the registers out.
    fn write_registers(&mut self, space: &mut [u8])
        requires { length space.old ≡ length self.old.registers }
        ensures device { self.new ≡ after_changes self.old (written self.old space.old) }
        ensures space { space.new ≡ self.new.registers }
    {
        write_all(&mut self.registers, &self.cpus, space);
        self.count = self.count.saturating_add(1);
        space.copy_from_slice(&self.registers);
    }
}

impl Executor for CppcDevice {
    ghost use Rattle.cppc_device.specs.States.{IsCppc, cppc_exec, cppc_room, cppc_state};
    ghost use Rattle.cppc_device.specs.Keeps.{cppc_keeps};

    ghost state = { cppc_state };

    ghost exec_of = { cppc_exec };

    ghost room_of = { cppc_room };

    ghost is_state = { IsCppc };

    ghost keeps = { cppc_keeps };

    fn exec(&mut self, code: u32, space: &mut [u8]) -> ExecStatus {
        match code {
            CppcDevice::READ => {
                self.read_registers(space);
                ExecStatus::Good
            }
            CppcDevice::WRITE => {
                self.write_registers(space);
                ExecStatus::Good
            }
            _ => ExecStatus::Bad,
        }
    }

    fn room(&self) -> u32 {
        are_bytes(&self.registers);
        self.registers.len() as u32
    }
}

/// The state decides the device. It does nothing.
pub fn device_laws()
    ensures { (device : Cppc) → cppc_in (cppc_state device) ≡ device }
{}
