// Ids and faults as texts.
use fed_event::{CheckFault, PduFault, Version, event_id};
use fed_json::{Json, JsonFault, read};
use fed_room_contract::Refusal;
use std::alloc::Global;
use std::test::Fail;

// The value of a JSON text.
fn json(alloc: Global, text: &[u8]) -> Result<Json, Fail> {
    Ok(read(alloc, text)?)
}

#[test]
fn ids(rt: HostRuntime) -> Result<(), Fail> {
    let id = event_id(rt.alloc(), Version::V10, &json(rt.alloc(), b"{}")?)?;
    assert_eq!(rt;
        format!(in rt.alloc(); "{id} {id:?}")?.as_str(),
        "$RBNvo1WzZ4oRRq0W9-hknpT7T8If536DEMBg9hyq_4o \"$RBNvo1WzZ4oRRq0W9-hknpT7T8If536DEMBg9hyq_4o\""
    );
    Ok(())
}

#[test]
fn want_of_memory(rt: HostRuntime) -> Result<(), Fail> {
    let (value, event, check) = (JsonFault::Memory, PduFault::Memory, CheckFault::Memory);
    let refusal = Refusal::Memory;
    assert_eq!(rt;
        format!(in rt.alloc(); "{value}, {event}, {check}, {refusal}")?.as_str(),
        "out of memory, out of memory, out of memory, out of memory"
    );
    Ok(())
}
