// Stores of replies: which replies are packed, that both stores give each back to its origin alone, and that want of memory leaves a store as it was.
use fed_json::NoMemory;
use fed_replies::{ListStore, PackedStore, ReplyStore};
use std::alloc::Global;
use std::test::*;

// Replies under the numbers of their transactions, and whether each is packed.
const ROWS: [(&str, &str, bool); 13] = [
    (
        "1",
        "{\"pdus\":{\"$RBNvo1WzZ4oRRq0W9-hknpT7T8If536DEMBg9hyq_4o\":{}}}",
        true,
    ),
    (
        "2",
        "{\"pdus\":{\"$RBNvo1WzZ4oRRq0W9-hknpT7T8If536DEMBg9hyq_4o\":{\"error\":\"bad signature\"}}}",
        true,
    ),
    // a failed event and an accepted one
    (
        "3",
        "{\"pdus\":{\"$RBNvo1WzZ4oRRq0W9-hknpT7T8If536DEMBg9hyq_4o\":{\"error\":\"bad \\\"hash\\\"\"},\"$acR1l0raoZnm60CBwAVgqbZqoO_mYU81xysh1u7XcJk\":{}}}",
        true,
    ),
    // an accepted one and a failed one
    (
        "4",
        "{\"pdus\":{\"$RBNvo1WzZ4oRRq0W9-hknpT7T8If536DEMBg9hyq_4o\":{},\"$acR1l0raoZnm60CBwAVgqbZqoO_mYU81xysh1u7XcJk\":{\"error\":\"bad signature\"}}}",
        true,
    ),
    ("5", "{\"pdus\":{}}", true),
    // another spacing
    ("6", "{\"pdus\": {}}", false),
    // no hash
    ("7", "{\"pdus\":{\"$a\":{}}}", false),
    // bits are left over behind the 32 bytes
    (
        "8",
        "{\"pdus\":{\"$RBNvo1WzZ4oRRq0W9-hknpT7T8If536DEMBg9hyq_4p\":{}}}",
        false,
    ),
    // another member
    ("9", "{\"pdus\":{},\"version\":1}", false),
    // no reply
    ("10", "", false),
    // failed events and accepted ones by turns
    (
        "11",
        "{\"pdus\":{\"$AAAAAAAAAAAAAAAAAAAAAAAAAAAAAAAAAAAAAAAAAAA\":{\"error\":\"no\"},\"$BBBBBBBBBBBBBBBBBBBBBBBBBBBBBBBBBBBBBBBBBBA\":{},\"$CCCCCCCCCCCCCCCCCCCCCCCCCCCCCCCCCCCCCCCCCCA\":{\"error\":\"a \\\"b\\\"\"},\"$DDDDDDDDDDDDDDDDDDDDDDDDDDDDDDDDDDDDDDDDDDA\":{},\"$EEEEEEEEEEEEEEEEEEEEEEEEEEEEEEEEEEEEEEEEEEA\":{\"error\":\"no\"},\"$FFFFFFFFFFFFFFFFFFFFFFFFFFFFFFFFFFFFFFFFFFA\":{}}}",
        true,
    ),
    // not in the order of the ids
    (
        "12",
        "{\"pdus\":{\"$BBBBBBBBBBBBBBBBBBBBBBBBBBBBBBBBBBBBBBBBBBA\":{},\"$AAAAAAAAAAAAAAAAAAAAAAAAAAAAAAAAAAAAAAAAAAA\":{}}}",
        false,
    ),
    // an id that stands twice
    (
        "13",
        "{\"pdus\":{\"$AAAAAAAAAAAAAAAAAAAAAAAAAAAAAAAAAAAAAAAAAAA\":{},\"$AAAAAAAAAAAAAAAAAAAAAAAAAAAAAAAAAAAAAAAAAAA\":{}}}",
        false,
    ),
];

// Keeps a reply of a.example, where none is kept for the transaction.
fn keep_new<S: ReplyStore>(
    alloc: Global,
    store: &mut S,
    txn: &str,
    reply: &[u8],
) -> Result<(), NoMemory> {
    match store.get(alloc, "a.example", txn)? {
        None => store.keep(alloc, "a.example", txn, reply),
        Some(_) => Ok(()),
    }
}

// Whether a store, given all replies, gives each back to its origin and none to another.
fn gives_all_back<S: ReplyStore>(alloc: Global, store: &mut S) -> Result<bool, NoMemory> {
    for (txn, reply, _) in ROWS {
        keep_new(alloc, store, txn, reply.as_bytes())?;
    }
    for (txn, reply, _) in ROWS {
        let own = store.get(alloc, "a.example", txn)?;
        let other = store.get(alloc, "b.example", txn)?;
        if own.as_deref() != Some(reply.as_bytes()) || other.is_some() {
            return Ok(false);
        }
    }
    Ok(true)
}

#[test]
fn replies_are_kept_by_origin_and_number(rt: HostRuntime) -> Result<(), Fail> {
    let alloc = rt.alloc();
    let mut store = ListStore::new(alloc);
    assert_eq!(rt; store.get(alloc, "a.example", "1")?, None);
    store.keep(alloc, "a.example", "1", b"one")?;
    assert_eq!(rt;
        store.get(alloc, "a.example", "1")?.as_deref(),
        Some(b"one".as_slice())
    );
    assert_eq!(rt; store.get(alloc, "b.example", "1")?, None);
    assert_eq!(rt; store.get(alloc, "a.example", "2")?, None);
    Ok(())
}

#[test]
fn both_stores_give_replies_back(rt: HostRuntime) -> Result<(), Fail> {
    let alloc = rt.alloc();
    assert!(rt; gives_all_back(alloc, &mut ListStore::new(alloc))?);
    assert!(rt; gives_all_back(alloc, &mut PackedStore::new(alloc))?);
    Ok(())
}

#[test]
fn replies_of_the_form_are_packed(rt: HostRuntime) -> Result<(), Fail> {
    let alloc = rt.alloc();
    let mut store = PackedStore::new(alloc);
    let mut packed = 0;
    for (txn, reply, is_packed) in ROWS {
        keep_new(alloc, &mut store, txn, reply.as_bytes())?;
        if is_packed {
            packed = packed.min(10) + 1;
        }
        assert_eq!(rt; store.packed(), packed, "at {txn}");
    }
    Ok(())
}

// The replies that a server gives to three transactions, the second of which has events that are none.
#[test]
fn the_replies_of_a_run_are_packed(rt: HostRuntime) -> Result<(), Fail> {
    let alloc = rt.alloc();
    let mut store = PackedStore::new(alloc);
    let none = "{\"pdus\":{}}";
    let failed =
        "{\"pdus\":{\"$RBNvo1WzZ4oRRq0W9-hknpT7T8If536DEMBg9hyq_4o\":{\"error\":\"missing field: auth_events\"}}}";
    keep_new(alloc, &mut store, "7-1", none.as_bytes())?;
    keep_new(alloc, &mut store, "7-2", failed.as_bytes())?;
    keep_new(alloc, &mut store, "7-4", none.as_bytes())?;
    assert_eq!(rt; store.packed(), 3);
    Ok(())
}

// Where an allocation is refused (`rt try --test --fail-alloc`), the store is as before, and keeps the reply at the next try.
#[test]
fn want_of_memory_changes_nothing(rt: HostRuntime) {
    let alloc = rt.alloc();
    let mut store = PackedStore::new(alloc);
    for (place, (txn, reply, _)) in ROWS.iter().enumerate() {
        let packed = store.packed();
        if keep_new(alloc, &mut store, txn, reply.as_bytes()).is_err() {
            assert_eq!(rt; store.packed(), packed, "at {txn}");
            assert!(rt;
                matches!(store.get(alloc, "a.example", txn), Ok(None)),
                "at {txn}"
            );
            for (earlier, reply, _) in &ROWS[..place] {
                let kept = store.get(alloc, "a.example", earlier);
                assert!(rt;
                    matches!(kept, Ok(Some(ref bytes)) if bytes.as_slice() == reply.as_bytes()),
                    "at {earlier}"
                );
            }
            assert!(rt;
                keep_new(alloc, &mut store, txn, reply.as_bytes()).is_ok(),
                "at {txn}"
            );
        }
    }
}
