use crate::told::told;
use std::test::Fail;

/// What stands behind `$JS.API.` in a subject, a payload, and what they are read as.
const ROWS: [(&str, &str, &str); 84] = [
    // Each request once.
    (
        "STREAM.CREATE.S",
        r#"{"name":"S","max_msgs":5}"#,
        "create S 5",
    ),
    ("STREAM.UPDATE.S", r#"{"name":"S"}"#, "update S 0"),
    ("STREAM.DELETE.S", "", "remove S"),
    ("STREAM.INFO.NOPE", "", "info NOPE"),
    ("STREAM.NAMES", "", "names 0"),
    ("STREAM.PURGE.S", "", "purge S all"),
    ("STREAM.MSG.GET.S", r#"{"seq":5}"#, "get S 5"),
    ("STREAM.MSG.DELETE.S", r#"{"seq":5}"#, "delete S 5"),
    ("CONSUMER.CREATE.S", "", "not for clients"),
    // Subjects that are almost one.
    ("STREAM.INFO", "", "not the API's"),
    ("STREAM.INFO.S.T", "", "not the API's"),
    ("STREAM.info.S", "", "not the API's"),
    ("STREAM.NAMES.S", "", "not the API's"),
    ("STREAM.LIST", "", "not the API's"),
    ("STREAM.MSG.GET", "", "not the API's"),
    ("STREAM.MSG.PURGE.S", "", "not the API's"),
    ("STREAM.MSG.GET.S.T", "", "not the API's"),
    ("STREAM.INFO.a/b", "", "not the API's"),
    ("CONSUMER.INFO.S", "", "not the API's"),
    ("CONSUMER.CREATE.S.C", "", "not the API's"),
    ("INFO", "", "not the API's"),
    // The subject is looked at before the payload.
    ("CONSUMER.CREATE.S", "{", "not for clients"),
    ("STREAM.LIST", "{", "not the API's"),
    // Payloads that are no object.
    ("STREAM.INFO.S", "[]", "bad request"),
    ("STREAM.DELETE.S", "null", "bad request"),
    ("STREAM.PURGE.S", "{", "bad request"),
    ("STREAM.NAMES", "{} {}", "bad request"),
    ("STREAM.MSG.GET.S", "[]", "bad request"),
    ("STREAM.CREATE.S", "[]", "bad request"),
    (
        "STREAM.CREATE.S",
        r#"{"name":"S","max_msgs":5,}"#,
        "bad request",
    ),
    // Members that no request knows.
    (
        "STREAM.INFO.S",
        r#"{"subjects_filter":">","offset":-1}"#,
        "info S",
    ),
    ("STREAM.NAMES", r#"{"subject":5}"#, "names 0"),
    // Offsets.
    (
        "STREAM.NAMES",
        r#"{"offset":18446744073709551615}"#,
        "names 18446744073709551615",
    ),
    (
        "STREAM.NAMES",
        r#"{"offset":18446744073709551616}"#,
        "bad request",
    ),
    ("STREAM.NAMES", r#"{"offset":-1}"#, "bad request"),
    ("STREAM.NAMES", r#"{"offset":1.0}"#, "bad request"),
    ("STREAM.NAMES", r#"{"offset":1e2}"#, "bad request"),
    ("STREAM.NAMES", r#"{"offset":null}"#, "bad request"),
    // Purges.
    (
        "STREAM.PURGE.S",
        r#"{"filter":"a.>","seq":7,"keep":0}"#,
        "purge S a.> below 7",
    ),
    ("STREAM.PURGE.S", r#"{"seq":0}"#, "purge S all below 0"),
    ("STREAM.PURGE.S", r#"{"filter":"a.b"}"#, "purge S a.b"),
    ("STREAM.PURGE.S", r#"{"filter":""}"#, "bad request"),
    ("STREAM.PURGE.S", r#"{"filter":"a..b"}"#, "bad request"),
    ("STREAM.PURGE.S", r#"{"filter":null}"#, "bad request"),
    ("STREAM.PURGE.S", r#"{"seq":"7"}"#, "bad request"),
    ("STREAM.PURGE.S", r#"{"seq":-1}"#, "bad request"),
    (
        "STREAM.PURGE.S",
        r#"{"seq":18446744073709551615}"#,
        "purge S all below 18446744073709551615",
    ),
    (
        "STREAM.PURGE.S",
        r#"{"seq":18446744073709551616}"#,
        "bad request",
    ),
    ("STREAM.PURGE.S", r#"{"seq":7.0}"#, "bad request"),
    ("STREAM.PURGE.S", r#"{"keep":1}"#, "bad request"),
    ("STREAM.PURGE.S", r#"{"keep":0.0}"#, "bad request"),
    ("STREAM.PURGE.S", r#"{"keep":-0}"#, "bad request"),
    ("STREAM.PURGE.S", r#"{"keep":null}"#, "bad request"),
    // Messages.
    ("STREAM.MSG.GET.S", r#"{"seq":0}"#, "get S 0"),
    (
        "STREAM.MSG.GET.S",
        r#"{"seq":18446744073709551615}"#,
        "get S 18446744073709551615",
    ),
    (
        "STREAM.MSG.GET.S",
        r#"{"seq":18446744073709551616}"#,
        "bad request",
    ),
    ("STREAM.MSG.GET.S", r#"{"seq":1e0}"#, "bad request"),
    ("STREAM.MSG.GET.S", r#"{"seq":-1}"#, "bad request"),
    ("STREAM.MSG.GET.S", r#"{"seq":1.5}"#, "bad request"),
    (
        "STREAM.MSG.GET.S",
        r#"{"last_by_subj":"a.b"}"#,
        "get S last of a.b",
    ),
    (
        "STREAM.MSG.GET.S",
        r#"{"last_by_subj":"a.*"}"#,
        "bad request",
    ),
    ("STREAM.MSG.GET.S", r#"{"last_by_subj":5}"#, "bad request"),
    (
        "STREAM.MSG.GET.S",
        r#"{"seq":1,"last_by_subj":"a"}"#,
        "bad request",
    ),
    ("STREAM.MSG.GET.S", "{}", "bad request"),
    ("STREAM.MSG.GET.S", "", "bad request"),
    (
        "STREAM.MSG.DELETE.S",
        r#"{"seq":1,"no_erase":"yes"}"#,
        "delete S 1",
    ),
    ("STREAM.MSG.DELETE.S", r#"{"seq":0}"#, "delete S 0"),
    (
        "STREAM.MSG.DELETE.S",
        r#"{"seq":18446744073709551615}"#,
        "delete S 18446744073709551615",
    ),
    (
        "STREAM.MSG.DELETE.S",
        r#"{"seq":18446744073709551616}"#,
        "bad request",
    ),
    ("STREAM.MSG.DELETE.S", r#"{"seq":1.0}"#, "bad request"),
    ("STREAM.MSG.DELETE.S", r#"{"no_erase":true}"#, "bad request"),
    ("STREAM.MSG.DELETE.S", r#"{"seq":true}"#, "bad request"),
    // Of two members of one name the last counts.
    ("STREAM.MSG.DELETE.S", r#"{"seq":1,"seq":2}"#, "delete S 2"),
    (
        "STREAM.MSG.DELETE.S",
        r#"{"seq":1,"seq":"2"}"#,
        "bad request",
    ),
    // Configurations: the name first, then the others in the order of their table.
    ("STREAM.CREATE.S", "", "bad name"),
    ("STREAM.CREATE.S", r#"{"name":"T"}"#, "bad name"),
    (
        "STREAM.CREATE.S",
        r#"{"name":"T","subjects":5}"#,
        "bad name",
    ),
    ("STREAM.UPDATE.S", r#"{"name":null}"#, "bad name"),
    (
        "STREAM.CREATE.S",
        r#"{"name":"S","storage":"memory"}"#,
        "bad storage",
    ),
    (
        "STREAM.CREATE.S",
        r#"{"name":"S","max_msgs":1.5}"#,
        "bad max_msgs",
    ),
    (
        "STREAM.UPDATE.S",
        r#"{"name":"S","max_age":1e9}"#,
        "bad max_age",
    ),
    (
        "STREAM.CREATE.S",
        r#"{"name":"S","mirror":{"name":"O"},"subjects":["a"]}"#,
        "bad mirror",
    ),
    (
        "STREAM.CREATE.S",
        r#"{"name":"S","placement":null}"#,
        "create S 0",
    ),
    // What clients send with a stream of which they set the name and the subjects.
    (
        "STREAM.CREATE.ORDERS",
        r#"{"name":"ORDERS","subjects":["orders.>"],"retention":"limits","max_consumers":-1,"max_msgs":-1,"max_bytes":-1,"discard":"old","max_age":0,"max_msgs_per_subject":-1,"storage":"file","num_replicas":1,"placement":null,"republish":null,"metadata":{},"allow_direct":false,"mirror_direct":false,"sealed":false,"compression":"none"}"#,
        "create ORDERS 0",
    ),
];

#[test]
fn requests_are_read(rt: HostRuntime) -> Result<(), Fail> {
    for (subject, payload, want) in ROWS.iter() {
        assert!(rt;
            told(rt.alloc(), subject, payload.as_bytes())?.as_str() == *want,
            "{subject} {payload}"
        );
    }
    Ok(())
}

/// A payload that is no UTF-8, and one that nests 200 levels deep.
#[test]
fn other_payloads_are_bad(rt: HostRuntime) -> Result<(), Fail> {
    let alloc = rt.alloc();
    assert!(rt; told(alloc, "STREAM.NAMES", b"{\"a\":\"\xff\"}")?.as_str() == "bad request");
    let mut deep = Vec::new(alloc);
    deep.extend_from_slice(b"{\"a\":")?;
    for _ in 0..200 {
        deep.push(b'[')?;
    }
    for _ in 0..200 {
        deep.push(b']')?;
    }
    deep.push(b'}')?;
    assert!(rt; told(alloc, "STREAM.NAMES", &deep)?.as_str() == "bad request");
    Ok(())
}
