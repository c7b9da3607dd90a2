// Why no room begins, as texts.
use fed_room::StartFault;
use fed_room_contract::Receipt;
use std::test::Fail;

#[test]
fn start_faults_as_texts(rt: HostRuntime) -> Result<(), Fail> {
    let waiting = StartFault::NotAccepted(2, Receipt::Waiting);
    let memory = StartFault::Memory;
    assert_eq!(rt;
        format!(in rt.alloc(); "{waiting}, {memory}")?.as_str(),
        "event 2 is not accepted, out of memory"
    );
    Ok(())
}
