// Bodies of the greatest size, replies that are read, and names and faults as texts.
use fed_txn::{
    BodyField, MAX_BODY, ReplyFault, TxnFault, Verdicts, read, read_body, read_reply, write_reply,
};
use std::alloc::{AllocError, Global};
use std::test::Fail;

// The fault of a body.
fn fault_of(rt: &HostRuntime, body: &[u8]) -> Option<TxnFault> {
    read(rt.alloc(), body).err()
}

#[test]
fn body_size(rt: HostRuntime) -> Result<(), Fail> {
    let mut body = vec![in rt.alloc(); b' '; MAX_BODY]?;
    assert_eq!(rt; body.len(), 16_777_216);
    assert_eq!(rt; fault_of(&rt, &body), Some(TxnFault::NotJson));
    let text = b"{\"origin\":\"a\",\"origin_server_ts\":1,\"pdus\":[]}";
    for (i, byte) in text.iter().enumerate() {
        if let Some(place) = body.get_mut(i) {
            *place = *byte;
        }
    }
    assert_eq!(rt; fault_of(&rt, &body), None);
    body.push(b' ')?;
    assert_eq!(rt; fault_of(&rt, &body), Some(TxnFault::TooLarge));
    assert_eq!(rt;
        read_body(rt.alloc(), &body).err(),
        Some(TxnFault::TooLarge)
    );
    Ok(())
}

#[test]
fn texts(rt: HostRuntime) -> Result<(), Fail> {
    let (field, memory, large) = (
        BodyField::OriginServerTs,
        TxnFault::from(AllocError),
        TxnFault::TooLarge,
    );
    assert_eq!(rt;
        format!(in rt.alloc(); "{field}, {memory}, {large}")?.as_str(),
        "origin_server_ts, out of memory, body too large"
    );
    Ok(())
}

// The reply that a body is read as.
fn reply(alloc: Global, body: &[u8]) -> Result<Verdicts, Fail> {
    Ok(read_reply(alloc, body)?)
}

// Whether a body is read as no reply.
fn is_no_reply(rt: &HostRuntime, body: &[u8]) -> bool {
    read_reply(rt.alloc(), body).err() == Some(ReplyFault::NotReply)
}

#[test]
fn replies_are_read(rt: HostRuntime) -> Result<(), Fail> {
    let alloc = rt.alloc();
    let one = reply(alloc, b"{\"pdus\":{\"$x\":{}}}")?;
    assert_eq!(rt; one.len(), 1);
    assert_eq!(rt; one.get("$x"), Some(None));
    let two = reply(
        alloc,
        b"{\"more\":[1],\"pdus\":{\"$x\":{\"code\":2},\"$y\":{\"error\":\"no\"}}}",
    )?;
    assert_eq!(rt; two.get("$x"), Some(None));
    assert_eq!(rt; two.get("$y"), Some(Some("no")));
    assert_eq!(rt; two.get("$z"), None);
    let text = write_reply(alloc, &two)?;
    assert_eq!(rt;
        text.as_slice(),
        b"{\"pdus\":{\"$x\":{},\"$y\":{\"error\":\"no\"}}}".as_slice()
    );
    Ok(())
}

#[test]
fn no_replies(rt: HostRuntime) -> Result<(), Fail> {
    assert!(rt; is_no_reply(&rt, b"{}"));
    assert!(rt; is_no_reply(&rt, b"not json"));
    assert!(rt; is_no_reply(&rt, b"{\"pdus\":[]}"));
    assert!(rt; is_no_reply(&rt, b"{\"pdus\":{\"$x\":null}}"));
    assert!(rt; is_no_reply(&rt, b"{\"pdus\":{\"$x\":{\"error\":1}}}"));
    assert!(rt; is_no_reply(&rt, b"{\"pdus\":{},\"time\":1.5}"));
    assert!(rt; !is_no_reply(&rt, b"{\"pdus\":{}}"));
    Ok(())
}
