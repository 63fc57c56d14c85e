use crate::run::{Want, check};
use std::test::Fail;

#[test]
fn scripts_print_their_reports(rt: HostRuntime) -> Result<(), Fail> {
    let rows: [(&[u8], &[u8]); 15] = [
        (
            b"node hub\nnode leaf1\nstream hub ORDERS subjects=orders.new\nmirror leaf1 COPY hub ORDERS\npub hub ORDERS orders.new hello\nsettle\nshow leaf1 COPY\n",
            b"3 made\n4 made\n5 stored 1\nstream leaf1 COPY first 1 last 1 kept 1\nfrom hub ORDERS front 1\n1 0 orders.new 68656c6c6f\n",
        ),
        // Carriage returns before the line feeds, and a last line without one.
        (
            b"node hub\r\nnode leaf1\r\nstream hub ORDERS subjects=orders.new\r\nmirror leaf1 COPY hub ORDERS\r\npub hub ORDERS orders.new hello\r\nsettle\r\nshow leaf1 COPY",
            b"3 made\n4 made\n5 stored 1\nstream leaf1 COPY first 1 last 1 kept 1\nfrom hub ORDERS front 1\n1 0 orders.new 68656c6c6f\n",
        ),
        (b"", b""),
        // A mirror takes nothing before `settle`, and an origin's messages are there before it.
        (
            b"node hub\nnode leaf1\nstream hub S\npub hub S S a\npub hub S S\nmirror leaf1 M hub S\nshow leaf1 M\nsettle\nsettle\npub hub S S c d\nshow leaf1 M\n",
            b"3 made\n4 stored 1\n5 stored 2\n6 made\nstream leaf1 M first 0 last 0 kept 0\nfrom hub S front 0\n10 stored 3\nstream leaf1 M first 1 last 2 kept 2\nfrom hub S front 2\n1 0 S 61\n2 0 S -\n",
        ),
        // Streams of one name on two nodes are two streams.
        (
            b"node a\nnode b\nstream a S\nstream b S subjects=t\npub b S t x\nshow a S\nshow b S\n",
            b"3 made\n4 made\n5 stored 1\nstream a S first 0 last 0 kept 0\nstream b S first 1 last 1 kept 1\n1 0 t 78\n",
        ),
        // A deleted message is left out of a mirror.
        (
            b"node hub\nnode leaf1\nstream hub S\npub hub S S a\npub hub S S b\npub hub S S c\npub hub S S d\npub hub S S e\ndel hub S 3\nmirror leaf1 M hub S\nsettle\nshow leaf1 M\n",
            b"3 made\n4 stored 1\n5 stored 2\n6 stored 3\n7 stored 4\n8 stored 5\n9 deleted\n10 made\nstream leaf1 M first 1 last 5 kept 4\nfrom hub S front 5\n1 0 S 61\n2 0 S 62\n4 0 S 64\n5 0 S 65\n",
        ),
        // A repeat is answered where the stream is full.
        (
            b"node hub\nstream hub S max_msgs=1 discard=new\nhpub hub S S Nats-Msg-Id:m1 x\npub hub S S y\nhpub hub S S Nats-Msg-Id:m1 x\n",
            b"2 made\n3 stored 1\n4 refused Full 2\n5 duplicate 1\n",
        ),
        // A purge takes the numbers below its own.
        (
            b"node hub\nstream hub S subjects=a.*,b max_per_subject=1\npub hub S a.x 1\npub hub S b 2\npub hub S a.x 3\npurge hub S a.* 3\npurge hub S a.* 4\nlog hub S\nshow hub S\n",
            b"2 made\n3 stored 1\n4 stored 2\n5 stored 3\n6 purged 0\n7 purged 1\nlog hub S 4\nput 1 0 a.x 31\nput 2 0 b 32\nput 3 0 a.x 33\npurge a.* 4\nstream hub S first 2 last 3 kept 1\n2 0 b 32\n",
        ),
        // A message is gone at the very moment at which it is too old.
        (
            b"node hub\nstream hub S max_age=10\npub hub S S a\nclock 10\nexpire hub S\nshow hub S\n",
            b"2 made\n3 stored 1\n5 expired 1\nstream hub S first 2 last 1 kept 0\n",
        ),
        // A mirror has no subjects.
        (
            b"node hub\nnode leaf1\nstream hub ORDERS subjects=orders.new\nmirror leaf1 COPY hub ORDERS\npub hub ORDERS orders.new hello\npub leaf1 COPY orders.new x\nsettle\nshow leaf1 COPY\n",
            b"3 made\n4 made\n5 stored 1\n6 refused NoStream\nstream leaf1 COPY first 1 last 1 kept 1\nfrom hub ORDERS front 1\n1 0 orders.new 68656c6c6f\n",
        ),
        // A mirror of a mirror, through which a settle goes at once.
        (
            b"node hub\nnode leaf1\nnode leaf2\nstream hub S\nmirror leaf1 M hub S max_msgs=1\nmirror leaf2 N leaf1 M\npub hub S S a\npub hub S S b\nsettle\nshow leaf2 N\ndel leaf1 M 2\npub hub S S c\nsettle\nheads\n",
            b"4 made\n5 made\n6 made\n7 stored 1\n8 stored 2\nstream leaf2 N first 2 last 2 kept 1\nfrom leaf1 M front 2\n2 0 S 62\n11 deleted\n12 stored 3\nstream hub S first 1 last 3 kept 3\nstream leaf1 M first 3 last 3 kept 1\nfrom hub S front 3\nstream leaf2 N first 2 last 3 kept 2\nfrom leaf1 M front 3\n",
        ),
        // Each refusal of a publish.
        (
            b"node hub\nstream hub S subjects=a,b max_msg_size=4\npub hub S c x\nhpub hub S a Nats-TTL:1 x\nhpub hub S a Nats-Expected-Stream:T\npub hub S a one\nhpub hub S a Nats-Expected-Last-Sequence:7\nhpub hub S b Nats-Expected-Last-Subject-Sequence:1\npub hub S b 12345\ndel hub S 9\npurge hub S\npurge hub S\n",
            b"2 made\n3 refused NoStream\n4 refused BadHeader\n5 refused WrongStream\n6 stored 1\n7 refused WrongLast 1\n8 refused WrongSubjectLast 0\n9 refused TooLarge 5\n10 refused NoMessage\n11 purged 1\n12 purged 0\n",
        ),
        // One message of each subject: the next number, and a purge below the last.
        (
            b"node hub\nstream hub S subjects=a,b max_per_subject=1\npub hub S a 1\npub hub S b 2\npub hub S a 3\nhpub hub S a Nats-Expected-Last-Sequence:2 x\npurge hub S > 3\nshow hub S\n",
            b"2 made\n3 stored 1\n4 stored 2\n5 stored 3\n6 refused WrongLast 3\n7 purged 1\nstream hub S first 3 last 3 kept 1\n3 0 a 33\n",
        ),
        // A stored message isn't older than the one before it.
        (
            b"node hub\nstream hub S\nclock 7\npub hub S S a\nclock 3\npub hub S S b\nshow hub S\n",
            b"2 made\n4 stored 1\n6 stored 2\nstream hub S first 1 last 2 kept 2\n1 7 S 61\n2 7 S 62\n",
        ),
        // Every form.
        (
            b"# A hub and a leaf.\n\nnode hub\nnode leaf1\nstream hub S subjects=a.*,b max_msgs=3 window=10\nmirror leaf1 M hub S max_per_subject=1\nclock 100\nhpub hub S a.x Nats-Msg-Id:1;K:v one\npub hub S b\npub hub S a.y two  words \nsettle\nheads\ndel hub S 2\npurge hub S a.x\nupdate hub S max_age=50\nclock 150\nexpire hub S\nshow hub S\nlog hub S\nlog leaf1 M\nquiet\npub hub S b x\nshow leaf1 M\n",
            b"5 made\n6 made\n8 stored 1\n9 stored 2\n10 stored 3\nstream hub S first 1 last 3 kept 3\nstream leaf1 M first 1 last 3 kept 3\nfrom hub S front 3\n13 deleted\n14 purged 1\n15 updated\n17 expired 1\nstream hub S first 4 last 3 kept 0\nlog hub S 7\nput 1 100 a.x 6f6e65\n  Nats-Msg-Id: 1\n  K: v\nput 2 100 b -\nput 3 100 a.y 74776f2020776f72647320\ndel 2\npurge a.x 4\nlimits\nexpire 150\nlog leaf1 M 4\nbind 0 1 1\nput 1 100 a.x 6f6e65\n  Nats-Msg-Id: 1\n  K: v\nput 2 100 b -\nput 3 100 a.y 74776f2020776f72647320\nstream leaf1 M first 1 last 3 kept 3\nfrom hub S front 3\n1 100 a.x 6f6e65\n  Nats-Msg-Id: 1\n  K: v\n2 100 b -\n3 100 a.y 74776f2020776f72647320\n",
        ),
    ];
    for (script, out) in rows {
        let want = Want {
            number: 0,
            out,
            err: b"",
        };
        check(&rt, rt.alloc(), script, &want)?;
    }
    Ok(())
}

#[test]
fn a_line_that_is_not_legal_ends_a_script(rt: HostRuntime) -> Result<(), Fail> {
    let lines: [(&[u8], &[u8]); 36] = [
        (b"lose hub leaf1 1", b"leafd: line 5: NotYet\n"),
        (b"sources hub ALL from=hub/S", b"leafd: line 5: NotYet\n"),
        (b"stream hub T transform=a=>b", b"leafd: line 5: NotYet\n"),
        (b"mirror leaf1 M leaf1 C", b"leafd: line 5: NotYet\n"),
        (b"update hub S filter=a x=", b"leafd: line 5: NotYet\n"),
        (b"node", b"leafd: line 5: BadLine\n"),
        (b"node a b", b"leafd: line 5: BadLine\n"),
        (b"settle ", b"leafd: line 5: BadLine\n"),
        (b"settle now", b"leafd: line 5: BadLine\n"),
        (b" settle", b"leafd: line 5: BadLine\n"),
        (b"Settle", b"leafd: line 5: BadLine\n"),
        (b"stream hub T subject=a", b"leafd: line 5: BadLine\n"),
        (b"update hub S window=1", b"leafd: line 5: BadLine\n"),
        (
            b"mirror leaf1 M hub S subjects=a",
            b"leafd: line 5: BadLine\n",
        ),
        (
            b"stream hub T max_msgs=1 max_msgs=1",
            b"leafd: line 5: BadLine\n",
        ),
        (b"node API", b"leafd: line 5: BadName\n"),
        (b"node a.b", b"leafd: line 5: BadName\n"),
        (b"stream hub a.b max_msgs=x", b"leafd: line 5: BadName\n"),
        (b"pub hub S a..b x", b"leafd: line 5: BadSubject\n"),
        (b"purge hub S a..b x", b"leafd: line 5: BadSubject\n"),
        (b"del hub S x", b"leafd: line 5: BadNumber\n"),
        (b"clock 9223372036854775808", b"leafd: line 5: BadNumber\n"),
        (b"stream hub T subjects=a..b", b"leafd: line 5: BadOption\n"),
        (b"stream hub T subjects=a,a", b"leafd: line 5: BadOption\n"),
        (
            b"stream hub T subjects=$JS.a",
            b"leafd: line 5: BadOption\n",
        ),
        (b"update hub S max_age=1", b"leafd: line 5: BadOption\n"),
        (b"node hub", b"leafd: line 5: NodeTaken\n"),
        (b"show leaf2 S", b"leafd: line 5: NoNode\n"),
        (b"stream leaf2 T", b"leafd: line 5: NoNode\n"),
        (b"stream hub S", b"leafd: line 5: StreamTaken\n"),
        (b"mirror leaf1 C hub S", b"leafd: line 5: StreamTaken\n"),
        (b"show hub T", b"leafd: line 5: NoStream\n"),
        (b"mirror leaf1 M hub T", b"leafd: line 5: NoStream\n"),
        (b"log leaf1 S", b"leafd: line 5: NoStream\n"),
        (b"stream hub T subjects=S", b"leafd: line 5: Overlap\n"),
        (b"stream hub T subjects=*", b"leafd: line 5: Overlap\n"),
    ];
    for (line, err) in lines {
        let alloc = rt.alloc();
        let mut script = b"node hub\nstream hub S\nnode leaf1\nmirror leaf1 C hub S\n".to_vec(
            alloc,
        )?;
        script.extend_from_slice(line)?;
        script.extend_from_slice(b"\nnode last\n")?;
        let want = Want {
            number: 1,
            out: b"2 made\n4 made\n",
            err,
        };
        check(&rt, rt.alloc(), &script, &want)?;
    }
    Ok(())
}
