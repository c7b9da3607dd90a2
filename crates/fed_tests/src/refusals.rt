// Why an EDU is not offered and no server is named, as texts.
use fed_dest::NameFault;
use fed_journal::{EduFault, JournalFault};
use std::test::Fail;

#[test]
fn faults_as_texts(rt: HostRuntime) -> Result<(), Fail> {
    let (bad, large, deep) = (EduFault::BadEdu, EduFault::TooLarge, EduFault::TooDeep);
    assert_eq!(rt;
        format!(in rt.alloc(); "{bad}, {large}, {deep}")?.as_str(),
        "bad edu, edu too large, edu too deep"
    );
    let (entry, name) = (JournalFault::Memory, NameFault::Memory);
    assert_eq!(rt;
        format!(in rt.alloc(); "{entry}, {name}")?.as_str(),
        "out of memory, out of memory"
    );
    Ok(())
}
