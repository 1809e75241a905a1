//! The data and the page of runs, with what was worked out by hand from the definitions.
use crate::given::tells;
use crate::shown::{DATA, WRITE};
use crate::values::shown;
use reg_show::{PAGE_HEAD, PAGE_TAIL, Showing};
use serde_json::Value;
use std::alloc::Global;

/// What is told of a write.
const WRITE_DATA: &str = r##"{"version":1,
"title":"",
"processes":2,
"registers":["x"],
"front":"linear",
"events":[
{"event":"call 0 write x 5","process":0,"frame":null,"clock":1,"delivered":[],"reply":null,"sent":[[1,0,["cast",0,1,"write x 5"]]],"note":""}
,{"event":"take 0 1 0","process":1,"frame":["cast",0,1,"write x 5"],"clock":2,"delivered":[[1,0]],"reply":null,"sent":[[0,0,["count",1]],[0,1,["ack",0,2]]],"note":""}
,{"event":"take 1 0 1","process":0,"frame":["ack",0,2],"clock":3,"delivered":[[1,0]],"reply":{"answer":"done","place":0},"sent":[[1,1,["count",1]]],"note":""}
],
"states":[
{"peers":[null,[0,0,0,1]],"held":[[1,0]],"copy":[],"delivered":0,"running":["cast",1]}
,{"peers":[[1,1,0,1],null],"held":[],"copy":[[0,"5"]],"delivered":1,"running":null}
,{"peers":[null,[2,1,0,1]],"held":[],"copy":[[0,"5"]],"delivered":1,"running":null}
],
"arrows":[
[0,1,0,0,1]
,[1,0,1,1,2]
],
"operations":[
{"process":0,"number":0,"op":"write x 5","call":0,"answer":{"at":2,"text":"done"}}
],
"order":[
[1,0,0,1]
],
"reads":[
],
"witness":[
[0,0]
],
"points":[
[0,0,1]
]}
"##;

/// A read that is held between two deliveries of one event, of a register beside another, with the greatest value.
const HELD: &str = "processes 2
registers w x
front local-write
call 0 write x 1
call 1 write x 18446744073709551615
call 0 read x
take 1 0 0
tick 1
";

const HELD_DATA: &str = r##"{"version":1,
"title":"",
"processes":2,
"registers":["w","x"],
"front":"local-write",
"events":[
{"event":"call 0 write x 1","process":0,"frame":null,"clock":1,"delivered":[],"reply":{"answer":"done","place":0},"sent":[[1,0,["cast",0,1,"write x 1"]]],"note":""}
,{"event":"call 1 write x 18446744073709551615","process":1,"frame":null,"clock":1,"delivered":[],"reply":{"answer":"done","place":0},"sent":[[0,0,["cast",0,1,"write x 18446744073709551615"]]],"note":""}
,{"event":"call 0 read x","process":0,"frame":null,"clock":1,"delivered":[],"reply":null,"sent":[],"note":""}
,{"event":"take 1 0 0","process":0,"frame":["cast",0,1,"write x 18446744073709551615"],"clock":2,"delivered":[[1,0],[1,1]],"reply":{"answer":"value 1","place":1},"sent":[[1,1,["count",1]],[1,2,["ack",1,2]]],"note":""}
,{"event":"tick 1","process":1,"frame":null,"clock":1,"delivered":[],"reply":null,"sent":[[0,1,["cast",0,1,"write x 18446744073709551615"]]],"note":""}
],
"states":[
{"peers":[null,[0,0,0,1]],"held":[[1,0]],"copy":[],"delivered":0,"running":null}
,{"peers":[[0,0,0,1],null],"held":[[1,1]],"copy":[],"delivered":0,"running":null}
,{"peers":[null,[0,0,0,1]],"held":[[1,0]],"copy":[],"delivered":0,"running":["held"]}
,{"peers":[null,[1,1,0,2]],"held":[],"copy":[[1,"18446744073709551615"]],"delivered":2,"running":null}
,{"peers":[[0,0,0,1],null],"held":[[1,1]],"copy":[],"delivered":0,"running":null}
],
"arrows":[
[1,0,0,1,3]
],
"operations":[
{"process":0,"number":0,"op":"write x 1","call":0,"answer":{"at":0,"text":"done"}}
,{"process":1,"number":0,"op":"write x 18446744073709551615","call":1,"answer":{"at":1,"text":"done"}}
,{"process":0,"number":1,"op":"read x","call":2,"answer":{"at":3,"text":"value 1"}}
],
"order":[
[1,0,0,3]
,[1,1,0,3]
],
"reads":[
[0,1,1]
],
"witness":[
[0,0]
,[0,1]
,[1,0]
],
"points":null}
"##;

/// Comments that a page could take for its own, with characters that a string of JSON can't have, and letters beyond
/// ASCII.
const NOTED: &str = "# </script><script>alert(1)</script>
#  He said \"no\" & left \\ here.

processes 1
# of no event
registers x
front linear
#no space
# \u{e9} \u{2603} \u{1f600}
tick 0
#\ttab\u{7f}
tick 0
tick 0
# <!--
#

# -->
tick 0
# behind the last event
";

const NOTED_DATA: &str = r##"{"version":1,
"title":"\u003c/script\u003e\u003cscript\u003ealert(1)\u003c/script\u003e  He said \u0022no\u0022 \u0026 left \u005c here.",
"processes":1,
"registers":["x"],
"front":"linear",
"events":[
{"event":"tick 0","process":0,"frame":null,"clock":0,"delivered":[],"reply":null,"sent":[],"note":"no space \u00e9 \u2603 \ud83d\ude00"}
,{"event":"tick 0","process":0,"frame":null,"clock":0,"delivered":[],"reply":null,"sent":[],"note":"\u0009tab\u007f"}
,{"event":"tick 0","process":0,"frame":null,"clock":0,"delivered":[],"reply":null,"sent":[],"note":""}
,{"event":"tick 0","process":0,"frame":null,"clock":0,"delivered":[],"reply":null,"sent":[],"note":"\u003c!-- --\u003e"}
],
"states":[
{"peers":[null],"held":[],"copy":[],"delivered":0,"running":null}
,{"peers":[null],"held":[],"copy":[],"delivered":0,"running":null}
,{"peers":[null],"held":[],"copy":[],"delivered":0,"running":null}
,{"peers":[null],"held":[],"copy":[],"delivered":0,"running":null}
],
"arrows":[
],
"operations":[
],
"order":[
],
"reads":[
],
"witness":[
],
"points":[
]}
"##;

/// Texts, and the data of each.
const RUNS: [(&str, &str); 3] = [(WRITE, WRITE_DATA), (HELD, HELD_DATA), (NOTED, NOTED_DATA)];

#[test]
fn data_is_that_worked_by_hand(rt: HostRuntime) {
    for (text, wanted) in &RUNS {
        assert!(rt; tells(rt.alloc(), DATA, text, (0, wanted, "")), "{text}");
    }
}

/// Whether there is a value, which is this string.
fn is_string(value: Option<&Value>, wanted: &str) -> bool {
    match value {
        Some(value) => value.as_str() == Some(wanted),
        None => false,
    }
}

/// Whether the member of this path of the data is this string.
fn is_string_at(alloc: Global, json: &str, path: &str, wanted: &str) -> bool {
    match Value::from_str(alloc, json) {
        Ok(value) => is_string(value.pointer(path), wanted),
        Err(_) => false,
    }
}

/// Data, the path of a member, and the string that it is.
const MEMBERS: [(&str, &str, &str); 7] = [
    (WRITE_DATA, "/events/2/event", "take 1 0 1"),
    (HELD_DATA, "/operations/2/answer/text", "value 1"),
    (
        NOTED_DATA,
        "/title",
        "</script><script>alert(1)</script>  He said \"no\" & left \\ here.",
    ),
    (
        NOTED_DATA,
        "/events/0/note",
        "no space \u{e9} \u{2603} \u{1f600}",
    ),
    (NOTED_DATA, "/events/1/note", "\ttab\u{7f}"),
    (NOTED_DATA, "/events/2/note", ""),
    (NOTED_DATA, "/events/3/note", "<!-- -->"),
];

#[test]
fn a_json_reader_reads_the_comments(rt: HostRuntime) {
    for (json, path, wanted) in &MEMBERS {
        assert!(rt; is_string_at(rt.alloc(), json, path, wanted), "{path}");
    }
}

/// Whether the page is its head, the data without its last line feed, and its tail.
fn is_page(page: &[u8], data_text: &str) -> bool {
    let behind_head = page.strip_prefix(PAGE_HEAD.as_bytes()).unwrap_or(&[]);
    let behind_data = behind_head
        .strip_prefix(data_text.trim_end().as_bytes())
        .unwrap_or(&[]);
    behind_data == PAGE_TAIL.as_bytes()
}

/// Whether the page of a text has this data.
fn is_framed(alloc: Global, text: &str, data_text: &str) -> bool {
    let (status, page, errors) = shown(alloc, Showing::Page, text.as_bytes());
    status == 0 && errors.is_empty() && is_page(page.as_slice(), data_text)
}

#[test]
fn a_page_is_its_head_the_data_and_its_tail(rt: HostRuntime) {
    for (text, wanted) in &RUNS {
        assert!(rt; is_framed(rt.alloc(), text, wanted), "{text}");
    }
}
