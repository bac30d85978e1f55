//! Wishes for the processor of a package of six fields.
use cpc_package::{SIX_FIELDS_PACKAGE, bind, cpc_from};
use cppc_calls::{SetRefusal, Wish, put_wish};
use std::alloc::Global;

// What a wish answers at a desired performance of 100, a minimum of 10 and a maximum of 300, and the first bytes then.
fn wished(alloc: Global, wish: Wish) -> Option<(Result<(), SetRefusal>, u8, u8)> {
    let Ok((cpc, _)) = cpc_from(alloc, &SIX_FIELDS_PACKAGE) else {
        return None;
    };
    let Ok(cpu) = bind(&cpc, 32) else {
        return None;
    };
    let mut space = *b"\x64\0\0\0\x0a\0\0\0\x2c\x01\0\0\0\0\0\0\0\0\0\0\0\0\0\0\0\0\0\0\0\0\0\0";
    let answer = put_wish(&cpu, &mut space, &wish);
    Some((answer, space[0], space[4]))
}

#[test]
fn a_wish_is_put_or_refused(rt: HostRuntime) {
    let wish = Wish {
        cpu: 0,
        min: Some(20),
        desired: 150,
        max: None,
    };
    assert!(rt; wished(rt.alloc(), wish) == Some((Ok(()), 150, 20)));
    let low = Wish {
        desired: 15,
        ..wish
    };
    let refusal = SetRefusal::MinAboveDesired {
        min: 20,
        desired: 15,
    };
    assert!(rt; wished(rt.alloc(), low) == Some((Err(refusal), 100, 10)));
}
