use crate::told::told;
use std::test::Fail;

/// Members beside the name `S`, and the first wrong one.
const MEMBERS: [(&str, &str); 92] = [
    // Subjects.
    (r#""subjects":null"#, "subjects"),
    (r#""subjects":"a""#, "subjects"),
    (r#""subjects":["a..b"]"#, "subjects"),
    (r#""subjects":["a",5]"#, "subjects"),
    (r#""subjects":["a.*","*.b"]"#, "subjects"),
    (r#""subjects":["$JS.API.x"]"#, "subjects"),
    (r#""subjects":[">"]"#, "subjects"),
    // Limits.
    (r#""retention":"workqueue""#, "retention"),
    (r#""retention":null"#, "retention"),
    (r#""max_msgs":1.5"#, "max_msgs"),
    (r#""max_msgs":1e2"#, "max_msgs"),
    (r#""max_msgs":-2"#, "max_msgs"),
    (r#""max_msgs":-0"#, "max_msgs"),
    (r#""max_msgs":9223372036854775808"#, "max_msgs"),
    (r#""max_msgs":"1""#, "max_msgs"),
    (r#""max_bytes":null"#, "max_bytes"),
    (r#""max_msgs_per_subject":true"#, "max_msgs_per_subject"),
    (r#""max_msg_size":-1.0"#, "max_msg_size"),
    (r#""max_age":-1"#, "max_age"),
    (r#""max_age":18446744073709551616"#, "max_age"),
    (r#""storage":"memory""#, "storage"),
    (r#""num_replicas":2"#, "num_replicas"),
    (r#""num_replicas":-1"#, "num_replicas"),
    (r#""num_replicas":1.0"#, "num_replicas"),
    (r#""discard":"New""#, "discard"),
    (r#""discard":null"#, "discard"),
    (r#""duplicate_window":-1"#, "duplicate_window"),
    (r#""max_age":5,"duplicate_window":6"#, "duplicate_window"),
    // Each limit's end, and one more; a fraction and an exponent at each number.
    (r#""max_bytes":9223372036854775808"#, "max_bytes"),
    (r#""max_bytes":-2"#, "max_bytes"),
    (r#""max_bytes":0.5"#, "max_bytes"),
    (r#""max_bytes":1e0"#, "max_bytes"),
    (
        r#""max_msgs_per_subject":9223372036854775808"#,
        "max_msgs_per_subject",
    ),
    (r#""max_msgs_per_subject":-2"#, "max_msgs_per_subject"),
    (r#""max_msgs_per_subject":1.0"#, "max_msgs_per_subject"),
    (r#""max_msgs_per_subject":1E2"#, "max_msgs_per_subject"),
    (r#""max_msg_size":9223372036854775808"#, "max_msg_size"),
    (r#""max_msg_size":-2"#, "max_msg_size"),
    (r#""max_msg_size":1e-1"#, "max_msg_size"),
    (r#""max_age":1.0"#, "max_age"),
    (r#""max_age":1e9"#, "max_age"),
    (r#""num_replicas":1e0"#, "num_replicas"),
    (
        r#""duplicate_window":18446744073709551616"#,
        "duplicate_window",
    ),
    (r#""duplicate_window":1.0"#, "duplicate_window"),
    (r#""duplicate_window":1e9"#, "duplicate_window"),
    (
        r#""mirror":{"name":"O","opt_start_seq":1e0}"#,
        "opt_start_seq",
    ),
    // Mirrors and origins.
    (r#""mirror":null"#, "mirror"),
    (r#""mirror":"O""#, "mirror"),
    (r#""mirror":{}"#, "name"),
    (r#""mirror":{"name":"a.b"}"#, "name"),
    (r#""mirror":{"name":"O"},"subjects":["a"]"#, "mirror"),
    (r#""mirror":{"name":"O"},"discard":"new""#, "mirror"),
    (r#""mirror":{"name":"O"},"max_msg_size":1"#, "mirror"),
    (r#""mirror":{"name":"O","filter_subject":"a"}"#, "mirror"),
    (
        r#""mirror":{"name":"O","filter_subject":""}"#,
        "filter_subject",
    ),
    (
        r#""mirror":{"name":"O","opt_start_seq":-1}"#,
        "opt_start_seq",
    ),
    (
        r#""mirror":{"name":"O","opt_start_seq":1.0}"#,
        "opt_start_seq",
    ),
    (
        r#""mirror":{"name":"O","opt_start_seq":9223372036854775808}"#,
        "opt_start_seq",
    ),
    (
        r#""mirror":{"name":"O","opt_start_seq":1,"opt_start_time":"2024-01-01T00:00:00Z"}"#,
        "opt_start_time",
    ),
    (
        r#""mirror":{"name":"O","opt_start_time":"1969-12-31T23:59:59Z"}"#,
        "opt_start_time",
    ),
    (
        r#""mirror":{"name":"O","opt_start_time":"2262-04-11T23:47:16.854775808Z"}"#,
        "opt_start_time",
    ),
    (
        r#""mirror":{"name":"O","opt_start_time":"2024-01-01"}"#,
        "opt_start_time",
    ),
    (r#""mirror":{"name":"O","external":null}"#, "external"),
    (r#""mirror":{"name":"O","external":{}}"#, "external"),
    (
        r#""mirror":{"name":"O","external":{"api":"$JS.hub.API","deliver":"x"}}"#,
        "external",
    ),
    (
        r#""mirror":{"name":"O","external":{"api":"$JS..API"}}"#,
        "external",
    ),
    (
        r#""mirror":{"name":"O","external":{"api":"$JS.hub.API.>"}}"#,
        "external",
    ),
    (r#""mirror":{"name":"O","domain":"hub"}"#, "domain"),
    (
        r#""mirror":{"name":"O"},"sources":[{"name":"P"}]"#,
        "sources",
    ),
    (r#""mirror":{},"sources":[{"name":"P"}]"#, "name"),
    // Sources.
    (r#""sources":[]"#, "sources"),
    (r#""sources":{"name":"P"}"#, "sources"),
    (r#""sources":["P"]"#, "sources"),
    (r#""sources":[{"name":"P"}],"discard":"new""#, "sources"),
    (
        r#""sources":[{"name":"P"},{"name":"Q","subject_transforms":[{"src":"a","dest":"b.$1"}]}]"#,
        "subject_transforms",
    ),
    (
        r#""sources":[{"name":"P","filter_subject":"a","subject_transforms":[{"src":"a","dest":"b"}]}]"#,
        "subject_transforms",
    ),
    (
        r#""sources":[{"name":"P","subject_transforms":[{"src":"a","dest":"b","x":1}]}]"#,
        "subject_transforms",
    ),
    // The stream's own transform.
    (r#""subject_transform":null"#, "subject_transform"),
    (r#""subject_transform":{"src":"a"}"#, "subject_transform"),
    (
        r#""subject_transform":{"src":"a","dest":" "}"#,
        "subject_transform",
    ),
    (
        r#""mirror":{"name":"O"},"subject_transform":{"src":"a","dest":"b"}"#,
        "subject_transform",
    ),
    // Members that are read past, and others.
    (r#""description":null"#, "description"),
    (r#""metadata":null"#, "metadata"),
    (r#""placement":{"tags":["a"]}"#, "placement"),
    (r#""republish":{"src":"a","dest":"b"}"#, "republish"),
    (r#""max_consumers":5"#, "max_consumers"),
    (r#""max_consumers":0.0"#, "max_consumers"),
    (r#""compression":"s2""#, "compression"),
    // The table's members come first, in its order, and then the others in byte order.
    (
        r#""allow_rollup_hdrs":true,"max_msgs":1.5,"zebra":1"#,
        "max_msgs",
    ),
    (
        r#""discard":"x","max_age":-1,"max_bytes":-2,"allow_msg_ttl":true"#,
        "max_bytes",
    ),
    (r#""zebra":1,"allow_rollup_hdrs":true"#, "allow_rollup_hdrs"),
    (
        r#""subject_transform":5,"sources":[{"name":"P","opt_start_seq":null}],"description":null"#,
        "opt_start_seq",
    ),
];

#[test]
fn the_first_wrong_member_is_told(rt: HostRuntime) -> Result<(), Fail> {
    for (members, name) in MEMBERS.iter() {
        let alloc = rt.alloc();
        let text = format!(in alloc; "{{\"name\":\"S\",{members}}}")?;
        let want = format!(in alloc; "bad {name}")?;
        assert!(rt;
            told(alloc, text.as_bytes())?.as_slice() == want.as_bytes(),
            "{text}"
        );
    }
    Ok(())
}

/// Texts that are no configuration at all, or that have no name for one.
const TEXTS: [(&str, &str); 10] = [
    ("", "bad request"),
    ("[]", "bad request"),
    ("5", "bad request"),
    ("{", "bad request"),
    (r#"{"name":"S"} {}"#, "bad request"),
    (r#"{"name":"S",}"#, "bad request"),
    ("{}", "bad name"),
    (r#"{"name":null}"#, "bad name"),
    (r#"{"name":""}"#, "bad name"),
    (r#"{"name":"a.b","subjects":5}"#, "bad name"),
];

#[test]
fn a_text_is_an_object_with_a_name(rt: HostRuntime) -> Result<(), Fail> {
    for (text, want) in TEXTS.iter() {
        assert!(rt;
            told(rt.alloc(), text.as_bytes())?.as_slice() == want.as_bytes(),
            "{text}"
        );
    }
    Ok(())
}
