//! Processors of both revisions of a package on one subspace, and a package of revision 2 as one of revision 3.
use cpc_package::{
    Binding, Cpc, SIX_FIELDS_PACKAGE, SIX_FIELDS_REVISION_2_PACKAGE, Source1, bind, cpc_from,
    cpc_raise, cpc_to, cpus_apart,
};
use cppc_device::CppcDevice;
use pcc_exec::{ExecStatus, Executor};
use std::alloc::Global;
use std::test::Fail;

// The package of revision 2 with its registers 32 bytes later.
fn later_package() -> [u8; 273] {
    let mut bytes = SIX_FIELDS_REVISION_2_PACKAGE;
    bytes[49] = 32;
    bytes[70] = 36;
    bytes[91] = 40;
    bytes[155] = 48;
    bytes[176] = 56;
    bytes[197] = 44;
    bytes
}

// A controller of two processors, of revisions 3 and 2, in a space of 64 bytes.
#[tactic(auto, using(crate::proofs::Alone::two_processors))]
fn controller(alloc: Global, image: &[u8]) -> Option<CppcDevice> {
    let (cpc, _) = cpc_from(alloc, &SIX_FIELDS_PACKAGE).ok()?;
    let (later, _) = cpc_from(alloc, &later_package()).ok()?;
    let Ok(a) = bind(&cpc, 64) else {
        return None;
    };
    let Ok(b) = bind(&later, 64) else {
        return None;
    };
    if a.subspace != b.subspace {
        return None;
    }
    if !cpus_apart(&a, &b) {
        return None;
    }
    CppcDevice::new(alloc, 64, image, &[a, b], &[]).ok()
}

#[test]
fn processors_of_both_revisions_stand_on_one_subspace(rt: HostRuntime) -> Result<(), Fail> {
    let image = *b"\x64\0\0\0\x0a\0\0\0\x2c\x01\0\0\0\0\0\0\0\0\0\0\0\0\0\0\0\0\0\0\0\0\0\0\
        \x32\0\0\0\x14\0\0\0\xc8";
    let mut device = controller(rt.alloc(), &image).ok_or("no device")?;
    let mut space = [0; 64];
    if device.room() != 64 {
        return Err(Fail::from("another room"));
    }
    assert!(rt; device.exec(CppcDevice::READ, &mut space) == ExecStatus::Good);
    assert!(rt;
        space
            == *b"\x64\0\0\0\x0a\0\0\0\x2c\x01\0\0\0\0\0\0\x64\0\0\0\0\0\0\0\x64\0\0\0\0\0\0\0\
                \x32\0\0\0\x14\0\0\0\xc8\0\0\0\0\0\0\0\x64\0\0\0\0\0\0\0\x32\0\0\0\0\0\0\0"
    );
    Ok(())
}

// What the sources of a package are in a space of 32 bytes, if it is bound.
fn sources(cpc: &Cpc) -> Option<Binding> {
    bind(cpc, 32).ok()
}

#[test]
fn a_package_of_revision_2_is_raised(rt: HostRuntime) -> Result<(), Fail> {
    let alloc = rt.alloc();
    let (cpc, _) = cpc_from(alloc, &SIX_FIELDS_REVISION_2_PACKAGE)
        .ok()
        .ok_or("refused")?;
    assert_eq!(rt; cpc.entries(), 21);
    let raised = cpc_raise(alloc, &cpc).ok().ok_or("no memory")?;
    assert_eq!(rt; raised.entries(), 23);
    let bytes = cpc_to(alloc, &raised).ok().ok_or("no memory")?;
    assert_eq!(rt; bytes.len(), 275);
    assert!(rt; bytes.starts_with(b"\x12\x42\x11\x17\x0a\x17\x0a\x03"));
    assert!(rt; bytes.get(8..273) == SIX_FIELDS_REVISION_2_PACKAGE.get(8..));
    assert!(rt; bytes.ends_with(b"\0\0"));
    let before = sources(&cpc).ok_or("not bound")?;
    let after = sources(&raised).ok_or("not bound")?;
    assert!(rt; before.subspace == after.subspace);
    assert!(rt; before.sources.get(..21) == after.sources.get(..21));
    assert!(rt; before.sources.get(21..) == Some(&[Source1::Missing, Source1::Missing]));
    assert!(rt; after.sources.get(21..) == Some(&[Source1::Number(0), Source1::Number(0)]));
    let again = cpc_raise(alloc, &raised).ok().ok_or("no memory")?;
    assert!(rt; cpc_to(alloc, &again).ok().ok_or("no memory")?.as_slice() == bytes.as_slice());
    Ok(())
}
