//! Caps of the performance that a controller delivers.
ghost use Rattle.std.specs.Prelude.{◌≡◌, ◌<◌, ◌^◌, length};
ghost use Rattle.cppc_device.specs.Devices.{in_force};
ghost use Rattle.cppc_device.specs.Openings.{cap_order};

/// From some number of good commands on, no processor delivers more than a value.
#[derive(Clone, Copy, Debug, PartialEq, Eq)]
pub struct Cap {
    /// How many good commands have been executed when the cap begins.
    pub count: u64,
    /// The greatest performance that is delivered.
    pub value: u64,
}

/// The value of the last cap that has begun after count good commands.

#[tactic(auto, using(crate::proofs::Caps::force_more, crate::proofs::Caps::force_other, crate::proofs::Caps::force_end))]
pub(crate) fn in_force(caps: &[Cap], count: u64) -> Option<u64>
    ensures { result ≡ in_force caps.now count }
{
    let mut held = None;
    for cap in caps {
        if cap.count <= count {
            held = Some(cap.value);
        }
    }
    held
}

/// The first cap whose count isn't above that of the one before.

#[tactic(auto, using(crate::proofs::Caps::order_start, crate::proofs::Caps::order_more, crate::proofs::Caps::order_hit, crate::proofs::Caps::order_end))]
pub(crate) fn cap_order(caps: &[Cap]) -> Option<u32>
    requires { length caps.now < 2 ^ 32 }
    ensures { result ≡ cap_order caps.now }
{
    for index in 1..caps.len() {
        if caps[index].count <= caps[index - 1].count {
            return Some(index as u32);
        }
    }
    None
}
