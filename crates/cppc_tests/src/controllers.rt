//! Controllers of one processor: of six fields, and of all that an operating system writes.
ghost use Rattle.std.specs.Prelude.{◌<◌, ◌^◌, length};

use cpc_package::{SIX_FIELDS_PACKAGE, bind, cpc_from};
use cppc_device::{Cap, CppcDevice, DeviceFault, start_inside, values_of};
use pcc_exec::{ExecStatus, Executor};
use std::alloc::Global;
use std::test::Fail;

// The desired, the minimum and the maximum performance are 100, 10 and 300.
const IMAGE: [u8; 12] = *b"\x64\0\0\0\x0a\0\0\0\x2c\x01\0\0";

// A package of fields of one byte, each at the byte of its entry's number.
const BYTE_FIELDS_PACKAGE: [u8; 299] =
    *b"\x12\x4a\x12\x17\x0a\x17\x0a\x03\x0b\x2c\x01\x0a\xc8\x0a\x50\x0a\x0a\
    \x11\x14\x0a\x11\x82\x0c\0\0\0\0\0\0\0\0\0\0\0\0\0\x79\0\
    \x11\x14\x0a\x11\x82\x0c\0\x0a\x08\0\0\x07\0\0\0\0\0\0\0\x79\0\
    \x11\x14\x0a\x11\x82\x0c\0\x0a\x08\0\0\x08\0\0\0\0\0\0\0\x79\0\
    \x11\x14\x0a\x11\x82\x0c\0\x0a\x08\0\0\x09\0\0\0\0\0\0\0\x79\0\
    \x11\x14\x0a\x11\x82\x0c\0\x0a\x08\0\0\x0a\0\0\0\0\0\0\0\x79\0\
    \x11\x14\x0a\x11\x82\x0c\0\x0a\x08\0\0\x0b\0\0\0\0\0\0\0\x79\0\
    \0\
    \x11\x14\x0a\x11\x82\x0c\0\x0a\x08\0\0\x0d\0\0\0\0\0\0\0\x79\0\
    \x11\x14\x0a\x11\x82\x0c\0\x0a\x08\0\0\x0e\0\0\0\0\0\0\0\x79\0\
    \x11\x14\x0a\x11\x82\x0c\0\x0a\x08\0\0\x0f\0\0\0\0\0\0\0\x79\0\
    \x11\x14\x0a\x11\x82\x0c\0\x0a\x08\0\0\x10\0\0\0\0\0\0\0\x79\0\
    \x11\x14\x0a\x11\x82\x0c\0\x0a\x08\0\0\x11\0\0\0\0\0\0\0\x79\0\
    \x11\x14\x0a\x11\x82\x0c\0\x0a\x08\0\0\x12\0\0\0\0\0\0\0\x79\0\
    \x11\x14\x0a\x11\x82\x0c\0\x0a\x08\0\0\x13\0\0\0\0\0\0\0\x79\0\
    \x0a\x64\x0b\x90\x01\x0b\xd0\x07";

// A controller of a package's processor alone, in a space of 32 bytes.
#[tactic(auto, using(crate::proofs::Alone::one_processor))]
fn controller_of(
    alloc: Global,
    bytes: &[u8],
    image: &[u8],
    caps: &[Cap],
) -> Result<CppcDevice, DeviceFault>
    requires { length bytes.now < 2 ^ 32 }
{
    let Ok((cpc, _)) = cpc_from(alloc, bytes) else {
        return Err(DeviceFault::NoMemory);
    };
    let Ok(cpu) = bind(&cpc, 32) else {
        return Err(DeviceFault::NoMemory);
    };
    if caps.len() > 8 {
        return Err(DeviceFault::NoMemory);
    }
    CppcDevice::new(alloc, 32, image, &[cpu], caps)
}

// A controller of the processor of six fields.
fn controller(alloc: Global, image: &[u8], caps: &[Cap]) -> Result<CppcDevice, DeviceFault> {
    controller_of(alloc, &SIX_FIELDS_PACKAGE, image, caps)
}

// What a command makes of a space that has as many bytes as the registers.
fn run(device: &mut CppcDevice, code: u32, space: &mut [u8]) -> Option<ExecStatus> {
    if space.len() != device.room() as usize {
        return None;
    }
    Some(device.exec(code, space))
}

#[test]
fn counters_grow_and_the_desired_performance_is_written(rt: HostRuntime) -> Result<(), Fail> {
    let mut device = controller(rt.alloc(), &IMAGE, &[]).ok().ok_or("no device")?;
    let mut space = [0; 32];
    assert!(rt; run(&mut device, 0, &mut space) == Some(ExecStatus::Good));
    assert!(rt;
        space == *b"\x64\0\0\0\x0a\0\0\0\x2c\x01\0\0\0\0\0\0\x64\0\0\0\0\0\0\0\x64\0\0\0\0\0\0\0"
    );
    space = *b"\x96\0\0\0\x0a\0\0\0\x2c\x01\0\0\0\0\0\0\xff\0\0\0\0\0\0\0\xff\0\0\0\0\0\0\0";
    assert!(rt; run(&mut device, 1, &mut space) == Some(ExecStatus::Good));
    assert!(rt;
        space == *b"\x96\0\0\0\x0a\0\0\0\x2c\x01\0\0\0\0\0\0\x64\0\0\0\0\0\0\0\x64\0\0\0\0\0\0\0"
    );
    assert!(rt; run(&mut device, 0, &mut space) == Some(ExecStatus::Good));
    assert!(rt;
        space == *b"\x96\0\0\0\x0a\0\0\0\x2c\x01\0\0\0\0\0\0\xc8\0\0\0\0\0\0\0\xfa\0\0\0\0\0\0\0"
    );
    assert!(rt; run(&mut device, 2, &mut space) == Some(ExecStatus::Bad));
    Ok(())
}

// The counters, entries 13 and 14, are the controller's own.
#[test]
fn a_write_takes_each_field_that_an_operating_system_writes(rt: HostRuntime) -> Result<(), Fail> {
    let mut device = controller_of(rt.alloc(), &BYTE_FIELDS_PACKAGE, &[], &[])
        .ok()
        .ok_or("no device")?;
    let mut space = [0xff; 32];
    assert!(rt; run(&mut device, 1, &mut space) == Some(ExecStatus::Good));
    assert!(rt;
        space
            == *b"\0\0\0\0\0\0\0\xff\xff\xff\xff\xff\0\0\0\xff\xff\xff\xff\xff\0\0\0\0\0\0\0\0\0\0\0\0"
    );
    Ok(())
}

#[test]
fn a_cap_is_delivered_and_noted(rt: HostRuntime) -> Result<(), Fail> {
    let cap = Cap {
        count: 1,
        value: 90,
    };
    let mut device = controller(rt.alloc(), &IMAGE, &[cap])
        .ok()
        .ok_or("no device")?;
    let mut space = [0; 32];
    assert!(rt; run(&mut device, 0, &mut space) == Some(ExecStatus::Good));
    assert!(rt;
        space == *b"\x64\0\0\0\x0a\0\0\0\x2c\x01\0\0\0\0\0\0\x64\0\0\0\0\0\0\0\x64\0\0\0\0\0\0\0"
    );
    assert!(rt; run(&mut device, 0, &mut space) == Some(ExecStatus::Good));
    assert!(rt;
        space == *b"\x64\0\0\0\x0a\0\0\0\x2c\x01\0\0\x01\0\0\0\xc8\0\0\0\0\0\0\0\xbe\0\0\0\0\0\0\0"
    );
    Ok(())
}

#[test]
fn no_device_has_a_long_image_or_caps_out_of_order(rt: HostRuntime) {
    let cap = Cap {
        count: 1,
        value: 90,
    };
    let long = controller(rt.alloc(), &[0; 33], &[]).err();
    assert!(rt; long == Some(DeviceFault::ImageTooLong { len: 33 }));
    let equal = controller(rt.alloc(), &IMAGE, &[cap, cap]).err();
    assert!(rt; equal == Some(DeviceFault::CapOrder { index: 1 }));
}

// Whether the package's processor is in its range, and the number of an entry.
#[tactic(auto, using(crate::proofs::Alone::all_fit, crate::proofs::Alone::one_fits))]
fn look(alloc: Global, space: &[u8], n: usize) -> Option<(bool, Option<u64>)> {
    let Ok((cpc, _)) = cpc_from(alloc, &SIX_FIELDS_PACKAGE) else {
        return None;
    };
    let Ok(cpu) = bind(&cpc, 32) else {
        return None;
    };
    if space.len() != 32 || n >= 23 {
        return None;
    }
    let values = values_of(&cpu, space);
    let inside = start_inside(&[cpu], space).is_ok();
    Some((inside, values.entries[n]))
}

#[test]
fn a_start_is_inside_or_outside(rt: HostRuntime) {
    let space = *b"\x64\0\0\0\x0a\0\0\0\x2c\x01\0\0\0\0\0\0\0\0\0\0\0\0\0\0\0\0\0\0\0\0\0\0";
    assert!(rt; look(rt.alloc(), &space, 9) == Some((true, Some(300))));
    assert!(rt; look(rt.alloc(), &[0; 32], 7) == Some((false, Some(0))));
    assert!(rt; look(rt.alloc(), &space, 3) == Some((true, Some(200))));
    assert!(rt; look(rt.alloc(), &space, 6) == Some((true, None)));
}
