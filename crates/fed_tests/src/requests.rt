// Requests on their whole way: signed, written, read from pieces and answered.
use crate::inboxes::inbox;
use fed_event::StandIn;
use fed_http::{
    HttpFault, Message, Reader, Reply, Request, phrase, send_reply, signed_request, write_reply,
    write_request,
};
use std::alloc::Global;
use std::test::Fail;

const TARGET: &str = "/_matrix/federation/v1/send/7-1";

fn keys(alloc: Global, server: &str) -> Result<StandIn, Fail> {
    Ok(StandIn::new(String::from_str(alloc, server)?))
}

// The request as b.example reads it from pieces of seven bytes.
fn as_read(alloc: Global, request: &Request) -> Result<Option<Request>, Fail> {
    let bytes = write_request(alloc, request)?;
    let mut reader = Reader::requests(alloc);
    for part in bytes.chunks(7) {
        if let (Some(Message::Request(read)), _) = reader.feed(alloc, part)? {
            return Ok(Some(read));
        }
    }
    Ok(None)
}

// A request of a.example to b.example with this body.
fn put(alloc: Global, body: &[u8]) -> Result<Request, Fail> {
    let body = Vec::from_slice(alloc, body)?;
    let from = keys(alloc, "a.example")?;
    Ok(signed_request(alloc, "PUT", TARGET, "b.example", body, &from)?)
}

// A request of a.example with one EDU.
fn request_with_an_edu(alloc: Global) -> Result<Request, Fail> {
    put(
        alloc,
        b"{\"edus\":[{\"content\":{},\"edu_type\":\"m.x\"}],\"origin\":\"a.example\",\"origin_server_ts\":5,\"pdus\":[]}",
    )
}

#[test]
fn a_request_on_its_whole_way(rt: HostRuntime) -> Result<(), Fail> {
    let alloc = rt.alloc();
    let sent = request_with_an_edu(alloc)?;
    let Some(read) = as_read(alloc, &sent)? else {
        panic!(rt; "no request was read");
    };
    let mut inbox = inbox(alloc)?;
    let reply = inbox.answer(alloc, &read, &keys(alloc, "b.example")?);
    assert_eq!(rt;
        write_reply(alloc, &reply)?.as_slice(),
        b"HTTP/1.1 200 OK\r\nContent-Type: application/json\r\nContent-Length: 11\r\nConnection: close\r\n\r\n{\"pdus\":{}}".as_slice()
    );
    let mut edus = inbox.taken_edus("a.example");
    assert_eq!(rt;
        edus.next(),
        Some(b"{\"content\":{},\"edu_type\":\"m.x\"}".as_slice())
    );
    assert_eq!(rt; edus.next(), None);
    Ok(())
}

#[test]
fn a_request_is_judged_apart_from_the_inbox(rt: HostRuntime) -> Result<(), Fail> {
    let alloc = rt.alloc();
    let sent = request_with_an_edu(alloc)?;
    let mut inbox = inbox(alloc)?;
    for _ in 0..2 {
        let own = keys(alloc, "b.example")?;
        let Ok(judged) = inbox.receiver().receive(alloc, &sent, &own) else {
            panic!(rt; "the request was refused");
        };
        let reply = inbox.take(alloc, judged);
        assert_eq!(rt; reply.status(), 200);
        assert_eq!(rt; reply.body(), b"{\"pdus\":{}}".as_slice());
    }
    let mut edus = inbox.taken_edus("a.example");
    assert_eq!(rt;
        edus.next(),
        Some(b"{\"content\":{},\"edu_type\":\"m.x\"}".as_slice())
    );
    assert_eq!(rt; edus.next(), None);
    Ok(())
}

#[test]
fn a_body_over_the_limit(rt: HostRuntime) -> Result<(), Fail> {
    let alloc = rt.alloc();
    let long = vec![in alloc; b' '; 16_777_217]?;
    let sent = put(alloc, &long)?;
    let mut inbox = inbox(alloc)?;
    let reply = inbox.answer(alloc, &sent, &keys(alloc, "b.example")?);
    assert_eq!(rt; reply.status(), 413);
    Ok(())
}

#[test]
fn copies_of_requests_and_replies(rt: HostRuntime) -> Result<(), Fail> {
    let alloc = rt.alloc();
    let sent = put(alloc, b"{\"pdus\":[]}")?;
    let copy = sent.copy(alloc)?;
    assert_eq!(rt; copy.method(), "PUT");
    assert_eq!(rt; copy.target(), TARGET);
    assert_eq!(rt; copy.only_text("host"), Some("b.example"));
    assert_eq!(rt; copy.fields().len(), sent.fields().len());
    assert_eq!(rt; copy.body(), b"{\"pdus\":[]}".as_slice());
    for reply in [
        Reply::fixed(404, "no"),
        Reply::new(404, Vec::from_slice(alloc, b"no")?),
    ] {
        let copy = reply.copy(alloc)?;
        assert_eq!(rt; copy.status(), 404);
        assert_eq!(rt; copy.body(), b"no".as_slice());
    }
    Ok(())
}

#[test]
fn replies_to_faults_go_out_whole(rt: HostRuntime) -> Result<(), Fail> {
    let alloc = rt.alloc();
    for (fault, bytes) in [
        (
            HttpFault::BadHead,
            b"HTTP/1.1 400 Bad Request\r\nContent-Type: application/json\r\nContent-Length: 45\r\nConnection: close\r\n\r\n\
              {\"errcode\":\"M_UNKNOWN\",\"error\":\"bad request\"}"
                .as_slice(),
        ),
        (
            HttpFault::TooLarge,
            b"HTTP/1.1 413 Payload Too Large\r\nContent-Type: application/json\r\nContent-Length: 50\r\nConnection: close\r\n\r\n\
              {\"errcode\":\"M_TOO_LARGE\",\"error\":\"body too large\"}"
                .as_slice(),
        ),
        (
            HttpFault::Memory,
            b"HTTP/1.1 500 Internal Server Error\r\nContent-Type: application/json\r\nContent-Length: 47\r\nConnection: close\r\n\r\n\
              {\"errcode\":\"M_UNKNOWN\",\"error\":\"out of memory\"}"
                .as_slice(),
        ),
    ] {
        let mut written = Vec::new(alloc);
        send_reply(&mut written, &Reply::from(fault))?;
        assert_eq!(rt; written.as_slice(), bytes);
    }
    assert_eq!(rt; phrase(404), "Not Found");
    assert_eq!(rt; phrase(799), "");
    Ok(())
}
