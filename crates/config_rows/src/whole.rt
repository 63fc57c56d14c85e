use crate::told::told;
use std::test::Fail;

/// A stream of which nothing but the name is said.
const DEFAULT: &str =
    r#"{"discard":"old","duplicate_window":120000000000,"max_age":0,"max_bytes":-1,"max_msg_size":-1,"max_msgs":-1,"max_msgs_per_subject":-1,"name":"S","num_replicas":1,"retention":"limits","storage":"file","subjects":["S"]}"#;

/// Members beside the name that say no more than the name, among them such as clients
/// write out although nothing is set.
const NOTHING: [&str; 9] = [
    r#""subjects":[]"#,
    r#""subjects":["S"]"#,
    r#""retention":"limits","storage":"file","discard":"old""#,
    r#""max_msgs":0,"max_bytes":0,"max_msgs_per_subject":0,"max_msg_size":0,"max_age":0"#,
    r#""max_msgs":-1,"max_bytes":-1,"max_msgs_per_subject":-1,"max_msg_size":-1"#,
    r#""num_replicas":0,"duplicate_window":0"#,
    r#""description":"A stream.","metadata":{"a":"b"},"allow_direct":true,"mirror_direct":true"#,
    r#""placement":null,"republish":null,"metadata":{}"#,
    r#""max_consumers":-1,"no_ack":false,"template_owner":"","sealed":false,"deny_delete":false,"deny_purge":false,"allow_rollup_hdrs":false,"compression":"none","first_seq":0,"consumer_limits":{},"allow_direct":false,"mirror_direct":false"#,
];

#[test]
fn what_is_not_set_says_nothing(rt: HostRuntime) -> Result<(), Fail> {
    for members in NOTHING.iter() {
        let alloc = rt.alloc();
        let text = format!(in alloc; "{{\"name\":\"S\",{members}}}")?;
        assert!(rt;
            told(alloc, text.as_bytes())?.as_slice() == DEFAULT.as_bytes(),
            "{text}"
        );
    }
    Ok(())
}

/// Members beside the name `S`, and what is written between `{` and `}` of what is read.
const ROWS: [(&str, &str); 12] = [
    // Each limit at its end, and a window that is as long as the age.
    (
        r#""max_msgs":9223372036854775807,"max_bytes":9223372036854775807,"max_msgs_per_subject":1,"max_msg_size":9223372036854775807,"max_age":18446744073709551615,"discard":"new","duplicate_window":18446744073709551615"#,
        r#""discard":"new","duplicate_window":18446744073709551615,"max_age":18446744073709551615,"max_bytes":9223372036854775807,"max_msg_size":9223372036854775807,"max_msgs":9223372036854775807,"max_msgs_per_subject":1,"name":"S","num_replicas":1,"retention":"limits","storage":"file","subjects":["S"]"#,
    ),
    (
        r#""max_msgs_per_subject":9223372036854775807"#,
        r#""discard":"old","duplicate_window":120000000000,"max_age":0,"max_bytes":-1,"max_msg_size":-1,"max_msgs":-1,"max_msgs_per_subject":9223372036854775807,"name":"S","num_replicas":1,"retention":"limits","storage":"file","subjects":["S"]"#,
    ),
    (
        r#""max_msgs":1,"max_bytes":1,"max_msg_size":1,"max_age":1,"num_replicas":1,"duplicate_window":1"#,
        r#""discard":"old","duplicate_window":1,"max_age":1,"max_bytes":1,"max_msg_size":1,"max_msgs":1,"max_msgs_per_subject":-1,"name":"S","num_replicas":1,"retention":"limits","storage":"file","subjects":["S"]"#,
    ),
    // Without a window an age of less than two minutes is one.
    (
        r#""max_age":119999999999"#,
        r#""discard":"old","duplicate_window":119999999999,"max_age":119999999999,"max_bytes":-1,"max_msg_size":-1,"max_msgs":-1,"max_msgs_per_subject":-1,"name":"S","num_replicas":1,"retention":"limits","storage":"file","subjects":["S"]"#,
    ),
    (
        r#""max_age":120000000001,"duplicate_window":0"#,
        r#""discard":"old","duplicate_window":120000000000,"max_age":120000000001,"max_bytes":-1,"max_msg_size":-1,"max_msgs":-1,"max_msgs_per_subject":-1,"name":"S","num_replicas":1,"retention":"limits","storage":"file","subjects":["S"]"#,
    ),
    // Of two members of one name the last counts.
    (
        r#""subjects":["x"],"subjects":["b","a.*"]"#,
        r#""discard":"old","duplicate_window":120000000000,"max_age":0,"max_bytes":-1,"max_msg_size":-1,"max_msgs":-1,"max_msgs_per_subject":-1,"name":"S","num_replicas":1,"retention":"limits","storage":"file","subjects":["b","a.*"]"#,
    ),
    // Mirrors.
    (
        r#""mirror":{"name":"O"}"#,
        r#""discard":"old","duplicate_window":120000000000,"max_age":0,"max_bytes":-1,"max_msg_size":-1,"max_msgs":-1,"max_msgs_per_subject":-1,"mirror":{"name":"O","opt_start_seq":1},"name":"S","num_replicas":1,"retention":"limits","storage":"file","subjects":[]"#,
    ),
    (
        r#""subjects":[],"mirror":{"opt_start_time":"2262-04-11T23:47:16.854775807Z","name":"O","external":{"deliver":"","api":"$JS.hub.API"},"filter":null}"#,
        r#""discard":"old","duplicate_window":120000000000,"max_age":0,"max_bytes":-1,"max_msg_size":-1,"max_msgs":-1,"max_msgs_per_subject":-1,"mirror":{"external":{"api":"$JS.hub.API"},"name":"O","opt_start_time":"2262-04-11T23:47:16.854775807Z"},"name":"S","num_replicas":1,"retention":"limits","storage":"file","subjects":[]"#,
    ),
    (
        r#""mirror":{"name":"O","opt_start_time":"1970-01-01T01:00:00+01:00"}"#,
        r#""discard":"old","duplicate_window":120000000000,"max_age":0,"max_bytes":-1,"max_msg_size":-1,"max_msgs":-1,"max_msgs_per_subject":-1,"mirror":{"name":"O","opt_start_time":"1970-01-01T00:00:00.000000000Z"},"name":"S","num_replicas":1,"retention":"limits","storage":"file","subjects":[]"#,
    ),
    (
        r#""mirror":{"name":"O","opt_start_seq":9223372036854775807}"#,
        r#""discard":"old","duplicate_window":120000000000,"max_age":0,"max_bytes":-1,"max_msg_size":-1,"max_msgs":-1,"max_msgs_per_subject":-1,"mirror":{"name":"O","opt_start_seq":9223372036854775807},"name":"S","num_replicas":1,"retention":"limits","storage":"file","subjects":[]"#,
    ),
    // Sources, with subjects and a transform of the stream's own.
    (
        r#""subjects":["s"],"sources":[{"name":"P","opt_start_seq":0,"filter_subject":"a.>"},{"name":"Q","subject_transforms":[{"src":"a.*","dest":"b. $1"},{"src":"c","dest":""}]}],"subject_transform":{"src":"s","dest":"t"}"#,
        r#""discard":"old","duplicate_window":120000000000,"max_age":0,"max_bytes":-1,"max_msg_size":-1,"max_msgs":-1,"max_msgs_per_subject":-1,"name":"S","num_replicas":1,"retention":"limits","sources":[{"filter_subject":"a.>","name":"P","opt_start_seq":0},{"name":"Q","opt_start_seq":1,"subject_transforms":[{"dest":"b. $1","src":"a.*"},{"dest":"","src":"c"}]}],"storage":"file","subject_transform":{"dest":"t","src":"s"},"subjects":["s"]"#,
    ),
    (
        r#""sources":[{"name":"P","subject_transforms":[]}]"#,
        r#""discard":"old","duplicate_window":120000000000,"max_age":0,"max_bytes":-1,"max_msg_size":-1,"max_msgs":-1,"max_msgs_per_subject":-1,"name":"S","num_replicas":1,"retention":"limits","sources":[{"name":"P","opt_start_seq":1}],"storage":"file","subjects":[]"#,
    ),
];

#[test]
fn what_is_read_is_written_again(rt: HostRuntime) -> Result<(), Fail> {
    for (members, parts) in ROWS.iter() {
        let alloc = rt.alloc();
        let text = format!(in alloc; "{{\"name\":\"S\",{members}}}")?;
        let want = format!(in alloc; "{{{parts}}}")?;
        assert!(rt;
            told(alloc, text.as_bytes())?.as_slice() == want.as_bytes(),
            "{text}"
        );
        assert!(rt;
            told(alloc, want.as_bytes())?.as_slice() == want.as_bytes(),
            "{want}"
        );
    }
    Ok(())
}
