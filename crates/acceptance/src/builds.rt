use crate::run::{Ended, run, run_well};
use aug_base::MemSink;
use item_types::{Memory, Seq};
use std::alloc::Global;

/// What `build` comes to: the status, the history and the last line.
struct Built {
    file: &'static str,
    status: u8,
    history: &'static str,
    last: &'static str,
}

/// A file, so many workers, and what comes of it.
static BUILDS: [Built; 11] = [
    Built {
        file: "format = 1\napp = \"bare\"\n",
        status: 0,
        history: "",
        last: "built bare: steps 0, puts 0, calls 0\n",
    },
    // An overridden production is left out.
    Built {
        file: r#"
format = 1
app = "overridden"
finals = ["Done"]
extensions = [{name = "a", items = [{name = "Conf", kind = "simple"},
  {name = "Extra", kind = "simple"}, {name = "Done", kind = "empty"}], steps = [
  {name = "dflt", produces = ["Conf overridable", "Extra"], body = 'produce Conf(1); produce Extra(2);'},
  {name = "user", produces = ["Conf"], body = 'produce Conf(3);'},
  {name = "use", consumes = ["Conf", "Extra"], produces = ["Done"]}]}]
"#,
        status: 0,
        history: "start a.dflt\nput a.dflt Extra 2\nend a.dflt 0\nstart a.user\nput a.user Conf 3\nend a.user 0\nstart a.use\ntake a.use Conf (3)\ntake a.use Extra (2)\nend a.use 0\n",
        last: "built overridden: steps 3, puts 2, calls 0\n",
    },
    // An override that isn't active overrides nothing.
    Built {
        file: r#"
format = 1
app = "inactive_override"
config = {mine = false}
finals = ["Done"]
extensions = [{name = "a", items = [{name = "Conf", kind = "simple"},
  {name = "Extra", kind = "simple"}, {name = "Done", kind = "empty"}], steps = [
  {name = "dflt", produces = ["Conf overridable", "Extra"], body = 'produce Conf(1); produce Extra(2);'},
  {name = "user", produces = ["Conf"], only_if = ["mine"], body = 'produce Conf(3);'},
  {name = "use", consumes = ["Conf", "Extra"], produces = ["Done"]}]}]
"#,
        status: 0,
        history: "start a.dflt\nput a.dflt Conf 1\nput a.dflt Extra 2\nend a.dflt 0\nstart a.use\ntake a.use Conf (1)\ntake a.use Extra (2)\nend a.use 0\n",
        last: "built inactive_override: steps 2, puts 2, calls 0\n",
    },
    // An item without a producer is read as null, and a producer comes before its consumer.
    Built {
        file: r#"
format = 1
app = "optional"
finals = ["V"]
extensions = [{name = "a", items = [{name = "T", kind = "simple"}, {name = "V", kind = "simple"}], steps = [
  {name = "c", consumes = ["T optional"], produces = ["V"], body = 'produce V(get T);'}]}]
"#,
        status: 0,
        history: "start a.c\ntake a.c T ()\nput a.c V null\nend a.c 0\n",
        last: "built optional: steps 1, puts 1, calls 0\n",
    },
    Built {
        file: r#"
format = 1
app = "optional"
finals = ["V"]
extensions = [{name = "a", items = [{name = "T", kind = "simple"}, {name = "V", kind = "simple"}], steps = [
  {name = "c", consumes = ["T optional"], produces = ["V"], body = 'produce V(get T);'},
  {name = "p", produces = ["T"], body = 'produce T(5);'}]}]
"#,
        status: 0,
        history: "start a.p\nput a.p T 5\nend a.p 0\nstart a.c\ntake a.c T (5)\nput a.c V 5\nend a.c 0\n",
        last: "built optional: steps 2, puts 2, calls 0\n",
    },
    Built {
        file: r#"
format = 1
app = "multi"
finals = ["V"]
extensions = [{name = "a", items = [{name = "M", kind = "multi"}, {name = "V", kind = "simple"}], steps = [
  {name = "c", consumes = ["M"], produces = ["V"], body = 'produce V(len all M);'}]}]
"#,
        status: 0,
        history: "start a.c\ntake a.c M ()\nput a.c V 0\nend a.c 0\n",
        last: "built multi: steps 1, puts 1, calls 0\n",
    },
    // An ordered item is sorted by its key; equal keys stay in order.
    Built {
        file: r#"
format = 1
app = "ordered"
finals = ["Done"]
extensions = [{name = "a", items = [{name = "O", kind = "ordered", key = "k"}, {name = "Done", kind = "empty"}],
  beans = [{name = "B", fields = ["k", "n"]}], steps = [
  {name = "p", produces = ["O"], body = '''
produce O(new B{k: 9223372036854775807, n: 1});
produce O(new B{k: -9223372036854775808, n: 2});
produce O(new B{k: 0, n: 3});
produce O(new B{k: 0, n: 4});
'''},
  {name = "c", consumes = ["O"], produces = ["Done"]}]}]
"#,
        status: 0,
        history: "start a.p\nput a.p O B#0.0{k: 9223372036854775807, n: 1}\nput a.p O B#0.1{k: -9223372036854775808, n: 2}\nput a.p O B#0.2{k: 0, n: 3}\nput a.p O B#0.3{k: 0, n: 4}\nend a.p 0\nstart a.c\ntake a.c O (B#0.1{k: -9223372036854775808, n: 2}, B#0.2{k: 0, n: 3}, B#0.3{k: 0, n: 4}, B#0.0{k: 9223372036854775807, n: 1})\nend a.c 0\n",
        last: "built ordered: steps 2, puts 4, calls 0\n",
    },
    // A step that fails ends the run.
    Built {
        file: r#"
format = 1
app = "failing"
finals = ["Done"]
extensions = [{name = "a", items = [{name = "M", kind = "multi"}, {name = "Done", kind = "empty"}], steps = [
  {name = "x", produces = ["M"], body = 'produce M("a"); produce M("c");'},
  {name = "y", produces = ["M"], body = 'fail "no";'},
  {name = "z", consumes = ["M"], produces = ["Done"]}]}]
"#,
        status: 4,
        history: "start a.x\nput a.x M \"a\"\nput a.x M \"c\"\nend a.x 0\nstart a.y\nfail a.y \"no\"\n",
        last: "step failed: a.y: \"no\"\n",
    },
    Built {
        file: r#"
format = 1
app = "phases"
finals = ["Done"]
extensions = [{name = "a", items = [{name = "P", kind = "simple"}, {name = "Done", kind = "empty"}],
  recorders = [{name = "R", methods = [{name = "make"}, {name = "use_it", params = ["x"]}]}], steps = [
  {name = "r", produces = ["P"], record = "runtime", body = 'let x = call R.make(); produce P(x);'},
  {name = "s", consumes = ["P"], produces = ["Done"], record = "static", body = 'call R.use_it(get P);'}]}]
"#,
        status: 4,
        history: "start a.r\nput a.r P @0.0.runtime\nend a.r 1\n  call R.make() -> @0.0.runtime\nstart a.s\ntake a.s P (@0.0.runtime)\nfail a.s runtime proxy @0.0.runtime in a static step\n",
        last: "step failed: a.s: runtime proxy @0.0.runtime in a static step\n",
    },
    Built {
        file: r#"
format = 1
app = "handing_on"
finals = ["M"]
extensions = [{name = "a", items = [{name = "T", kind = "simple"}, {name = "M", kind = "multi"}], steps = [
  {name = "p", produces = ["T"], body = 'produce T(7);'},
  {name = "q", consumes = ["T"], produces = ["M"], body = 'produce M("x"); produce M(null);'}]}]
"#,
        status: 0,
        history: "start a.p\nput a.p T 7\nend a.p 0\nstart a.q\ntake a.q T (7)\nput a.q M \"x\"\nput a.q M null\nend a.q 0\n",
        last: "built handing_on: steps 2, puts 3, calls 0\n",
    },
    Built {
        file: r#"
format = 1
app = "log"
finals = ["Done"]
extensions = [{name = "core", items = [{name = "Done", kind = "empty"}],
  recorders = [{name = "Log", methods = [{name = "say", params = ["t"], body = 'print t;'}]}], steps = [
  {name = "boot", produces = ["Done"], record = "static", body = 'call Log.say("hi");'}]}]
"#,
        status: 0,
        history: "start core.boot\nend core.boot 1\n  call Log.say(\"hi\")\n",
        last: "built log: steps 1, puts 0, calls 1\n",
    },
];

/// Whether a build printed this history and this last line, and wrote the history.
fn came_to(ended: &Ended, name: &str, history: &[u8], last: &[u8]) -> bool {
    ended.sink.bytes().starts_with(history)
        && ended.sink.bytes().ends_with(last)
        && ended.sink.bytes().len() == history.len() + last.len()
        && ended.shelf.file(name) == Some(history)
}

#[test]
fn builds_print_and_write_their_histories(rt: HostRuntime) -> Result<(), Memory> {
    for built in &BUILDS {
        let ended = run_well(&rt, built.file.as_bytes(), &["build", "app.toml", "o"])?;
        assert_eq!(rt; ended.status, built.status);
        let history = built.history.as_bytes();
        assert!(rt; came_to(&ended, "o/history.txt", history, built.last.as_bytes()));
    }
    Ok(())
}

#[test]
fn a_read_or_a_write_that_fails_prints_nothing(rt: HostRuntime) -> Result<(), Memory> {
    for (call, status) in [(0, 6), (1, 7)] {
        let sink = MemSink::new(rt.alloc(), 4096, Seq::new(rt.alloc()));
        let words = ["build", "app.toml", "o"];
        let ended = run(&rt, BUILDS[1].file.as_bytes(), &words, &[call], sink)?;
        assert_eq!(rt; ended.status, status);
        assert!(rt; ended.sink.bytes().is_empty());
        assert_eq!(rt; ended.shelf.file("o/history.txt"), None);
    }
    Ok(())
}

/// Words of no form.
const REFUSED: [&[&str]; 6] = [
    &["build", "app.toml"],
    &["build", "app.toml", "o", "--workers", "0"],
    &["build", "app.toml", "o", "--workers", "65"],
    &["build", "app.toml", "o", "--workers", "04"],
    &["build", "app.toml", "o", "--workers"],
    &["build", "--workers=2", "app.toml", "o", "--workers=2"],
];

#[test]
fn words_of_a_build_have_their_forms(rt: HostRuntime) -> Result<(), Memory> {
    let file = BUILDS[1].file.as_bytes();
    for words in REFUSED {
        assert_eq!(rt; run_well(&rt, file, words)?.status, 1);
    }
    let words = ["build", "--workers=2", "app.toml", "--", "-o"];
    let ended = run_well(&rt, file, &words)?;
    assert_eq!(rt; ended.status, 0);
    assert!(rt; ended.shelf.file("-o/history.txt").is_some());
    Ok(())
}

/// A step that records one call for each pair of two lists of `null`, and then what `more` does.
fn many_calls(alloc: Global, more: &str) -> Result<String, Memory> {
    let mut file = String::new(alloc);
    file.push_str(
        "format = 1\napp = \"many_calls\"\nfinals = [\"Done\"]\nextensions = [{name = \"a\", items = [{name = \"Done\", kind = \"empty\"}], recorders = [{name = \"R\", methods = [{name = \"m\"}]}], steps = [{name = \"s\", produces = [\"Done\"], record = \"static\", body = 'let y = [null",
    )?;
    for _ in 1..64 {
        file.push_str(", null")?;
    }
    file.push_str("]; let z = [null")?;
    for _ in 1..128 {
        file.push_str(", null")?;
    }
    file.push_str("]; for a in y { for b in z { call R.m(); } }")?;
    file.push_str(more)?;
    file.push_str("'}]}]\n")?;
    Ok(file)
}

#[test]
fn a_step_records_8192_calls_and_no_more(rt: HostRuntime) -> Result<(), Memory> {
    let cases = [
        ("", 0, "built many_calls: steps 1, puts 0, calls 8192\n"),
        (" call R.m();", 4, "step failed: a.s: too many recorded\n"),
    ];
    for (more, status, last) in cases {
        let file = many_calls(rt.alloc(), more)?;
        let ended = run_well(&rt, file.as_bytes(), &["build", "app.toml", "o"])?;
        assert_eq!(rt; ended.status, status);
        assert!(rt; ended.sink.bytes().ends_with(last.as_bytes()));
    }
    Ok(())
}

/// A web server's routes, with how its history begins and the last line.
const WEB: &str = r#"
format = 1
app = "web"
finals = ["Started"]

[[extensions]]
name = "core"
items = [{name = "Banner", kind = "simple"}]
steps = [{name = "banner", produces = ["Banner"], body = 'produce Banner("Quarkus profile");'}]

[[extensions]]
name = "web"
items = [
  {name = "Route", kind = "ordered", key = "order"},
  {name = "Router", kind = "simple"},
  {name = "Started", kind = "empty"},
  {name = "Metrics", kind = "simple"},
  {name = "Trace", kind = "simple"},
]
beans = [{name = "RouteInfo", fields = ["order", "path"]}]

[[extensions.recorders]]
name = "WebRecorder"
statics = ["router"]
methods = [
  {name = "create", params = ["banner"], body = 'print banner; static.router = []; return static.router;'},
  {name = "mount", params = ["router", "path"], body = 'add(router, path);'},
  {name = "listen", params = ["router", "port"], body = 'print "routes"; print len router; print port;'},
]

[[extensions.steps]]
name = "pages"
produces = ["Route"]
body = 'for p in ["/p0", "/p1", "/p2", "/p3", "/p4", "/p5", "/p6", "/p7", "/p8", "/p9"] { produce Route(new RouteInfo{order: 20, path: p}); }'

[[extensions.steps]]
name = "api"
produces = ["Route"]
body = 'for p in ["/a0", "/a1", "/a2", "/a3", "/a4", "/a5", "/a6", "/a7", "/a8", "/a9", "/a10", "/a11", "/a12", "/a13", "/a14", "/a15", "/a16", "/a17", "/a18", "/a19"] { produce Route(new RouteInfo{order: 10, path: p}); }'

[[extensions.steps]]
name = "assets"
produces = ["Route"]
body = 'for p in ["/s0", "/s1", "/s2", "/s3", "/s4", "/s5", "/s6", "/s7", "/s8"] { produce Route(new RouteInfo{order: 30, path: p}); }'

[[extensions.steps]]
name = "health"
produces = ["Route"]
body = 'produce Route(new RouteInfo{order: -1, path: "/health"});'

[[extensions.steps]]
name = "router"
consumes = ["Banner", "Route"]
produces = ["Router"]
record = "static"
body = """
let r = call WebRecorder.create(get Banner);
for x in all Route { call WebRecorder.mount(r, x.path); }
produce Router(r);
"""

[[extensions.steps]]
name = "listen"
consumes = ["Router"]
produces = ["Started"]
record = "runtime"
body = 'call WebRecorder.listen(get Router, 8080);'

[[extensions.steps]]
name = "metrics"
produces = ["Metrics"]
body = 'produce Metrics(1);'

[[extensions.steps]]
name = "trace"
consumes = ["Metrics optional"]
produces = ["Trace"]
body = 'produce Trace(get Metrics);'
"#;

const WEB_BEGINS: &str =
    "start core.banner\nput core.banner Banner \"Quarkus profile\"\nend core.banner 0\nstart web.pages\nput web.pages Route RouteInfo#1.1{order: 20, path: \"/p0\"}\n";

const WEB_ENDS: &str =
    "  call WebRecorder.listen(@5.0.static, 8080)\nbuilt web: steps 7, puts 42, calls 42\n";

#[test]
fn a_web_server_is_built_by_one_worker_and_by_four(rt: HostRuntime) -> Result<(), Memory> {
    let ended = run_well(&rt, WEB.as_bytes(), &["build", "app.toml", "o"])?;
    assert_eq!(rt; ended.status, 0);
    assert!(rt; ended.sink.bytes().starts_with(WEB_BEGINS.as_bytes()));
    assert!(rt; ended.sink.bytes().ends_with(WEB_ENDS.as_bytes()));
    let ended = run_well(
        &rt,
        WEB.as_bytes(),
        &["build", "app.toml", "o", "--workers", "4"],
    )?;
    assert_eq!(rt; ended.status, 0);
    assert!(rt; ended.sink.bytes().ends_with(WEB_ENDS.as_bytes()));
    Ok(())
}
