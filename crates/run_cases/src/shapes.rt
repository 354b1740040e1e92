ghost use Rattle.std.specs.Prelude.{◌≤◌};

use crate::jobs::job_of;
use crate::meet::Meet;
use build_history::{History, Job, push_event};
use item_types::Memory;
use std::alloc::{AllocError, Global};
use std::sync::Wait;
use std::thread::Threads;
use step_workers::{run_one, run_workers};

/// A web server: routes from four steps are mounted on one router, which then listens. The last
/// two steps aren't needed.
pub const WEB: &str = r#"
format = 1
app = "web"
finals = ["Started"]

[[extensions]]
name = "core"
items = [{name = "Banner", kind = "simple"}]
steps = [{name = "banner", produces = ["Banner"], body = 'produce Banner("Quarkus profile");'}]

[[extensions]]
name = "web"
items = [
  {name = "Route", kind = "ordered", key = "order"},
  {name = "Router", kind = "simple"},
  {name = "Started", kind = "empty"},
  {name = "Metrics", kind = "simple"},
  {name = "Trace", kind = "simple"},
]
beans = [{name = "RouteInfo", fields = ["order", "path"]}]

[[extensions.recorders]]
name = "WebRecorder"
statics = ["router"]
methods = [
  {name = "create", params = ["banner"], body = 'print banner; static.router = []; return static.router;'},
  {name = "mount", params = ["router", "path"], body = 'add(router, path);'},
  {name = "listen", params = ["router", "port"], body = 'print "routes"; print len router; print port;'},
]

[[extensions.steps]]
name = "pages"
produces = ["Route"]
body = 'for p in ["/p0", "/p1", "/p2", "/p3", "/p4", "/p5", "/p6", "/p7", "/p8", "/p9"] { produce Route(new RouteInfo{order: 20, path: p}); }'

[[extensions.steps]]
name = "api"
produces = ["Route"]
body = 'for p in ["/a0", "/a1", "/a2", "/a3", "/a4", "/a5", "/a6", "/a7", "/a8", "/a9", "/a10", "/a11", "/a12", "/a13", "/a14", "/a15", "/a16", "/a17", "/a18", "/a19"] { produce Route(new RouteInfo{order: 10, path: p}); }'

[[extensions.steps]]
name = "assets"
produces = ["Route"]
body = 'for p in ["/s0", "/s1", "/s2", "/s3", "/s4", "/s5", "/s6", "/s7", "/s8"] { produce Route(new RouteInfo{order: 30, path: p}); }'

[[extensions.steps]]
name = "health"
produces = ["Route"]
body = 'produce Route(new RouteInfo{order: -1, path: "/health"});'

[[extensions.steps]]
name = "router"
consumes = ["Banner", "Route"]
produces = ["Router"]
record = "static"
body = '''
let r = call WebRecorder.create(get Banner);
for x in all Route { call WebRecorder.mount(r, x.path); }
produce Router(r);
'''

[[extensions.steps]]
name = "listen"
consumes = ["Router"]
produces = ["Started"]
record = "runtime"
body = 'call WebRecorder.listen(get Router, 8080);'

[[extensions.steps]]
name = "metrics"
produces = ["Metrics"]
body = 'produce Metrics(1);'

[[extensions.steps]]
name = "trace"
consumes = ["Metrics optional"]
produces = ["Trace"]
body = 'produce Trace(get Metrics);'
"#;

/// The texts of the events, in the order of their bytes.
fn event_texts(alloc: Global, job: &Job, history: &History) -> Result<Vec<String>, Memory> {
    let mut texts = Vec::new(alloc);
    for event in history.events() {
        let mut text = String::new(alloc);
        push_event(job, event, &mut text)?;
        if texts.push(text).is_err() {
            return Err(Memory);
        }
    }
    texts.sort()?;
    Ok(texts)
}

/// Whether so many workers give the events of one thread, and pause once for each of the first
/// `needed` of so many steps.
fn does_the_same<R: Threads + Wait + Sync>(
    rt: &R,
    alloc: Global,
    job: &Job,
    workers: u32,
    steps: usize,
    needed: usize,
) -> Result<bool, Memory>
    requires { (1 ≤ workers) × (workers ≤ 64) }
{
    let alone = run_one(alloc, job)?;
    let wanted = event_texts(alloc, job, &alone)?;
    let gate = Meet::new(alloc, workers, steps, &[])?;
    let history = run_workers(rt, alloc, job, workers, &gate)?;
    Ok(event_texts(alloc, job, &history)? == wanted && gate.saw_all(needed))
}

/// Whether four workers do this with the web server.
fn web_is_the_same<R: Threads + Wait + Sync>(rt: &R, alloc: Global) -> Result<bool, Memory> {
    let job = job_of(alloc, WEB)?;
    does_the_same(rt, alloc, &job, 4, 9, 7)
}

#[test]
fn workers_do_what_one_thread_does(rt: HostRuntime) -> Result<(), Memory> {
    assert!(&rt; web_is_the_same(&rt, rt.alloc())?);
    Ok(())
}

/// How many steps the tree has.
const STEPS: u32 = 60;

/// The items of the tree.
fn push_items(alloc: Global, text: &mut String) -> Result<(), AllocError> {
    for i in 0..STEPS {
        text.push_str(format!(in alloc; "{{name = \"V{i}\", kind = \"simple\"}},")?.as_str())?;
    }
    Ok(())
}

/// The steps of the tree.
fn push_steps(alloc: Global, text: &mut String) -> Result<(), AllocError> {
    for i in 1..STEPS {
        let up = (i - 1) / 2;
        text.push_str(format!(in alloc;
            "{{name = \"s{i}\", consumes = [\"V{up}\"], produces = [\"V{i}\", \"M\"], body = 'let x = new P{{n: {i}, up: get V{up}}}; produce V{i}(x); produce M(x);'}},"
        )?.as_str())?;
    }
    Ok(())
}

/// A tree of steps: each but the first consumes what the step of half its number produces.
fn tree(alloc: Global) -> Result<String, AllocError> {
    let mut text = String::new(alloc);
    text.push_str(
        "format = 1\napp = \"tree\"\nfinals = [\"M\"]\n[[extensions]]\nname = \"g\"\nbeans = [{name = \"P\", fields = [\"n\", \"up\"]}]\nitems = [{name = \"M\", kind = \"multi\"},",
    )?;
    push_items(alloc, &mut text)?;
    text.push_str(
        "]\nsteps = [{name = \"s0\", produces = [\"V0\", \"M\"], body = 'let x = new P{n: 0, up: null}; produce V0(x); produce M(x);'},",
    )?;
    push_steps(alloc, &mut text)?;
    text.push_str("]\n")?;
    Ok(text)
}

/// The tree's job.
fn tree_job(alloc: Global) -> Result<Job, Memory> {
    let text = tree(alloc)?;
    job_of(alloc, text.as_str())
}

/// Whether eight workers do this with the tree, two hundred times.
fn trees_are_the_same<R: Threads + Wait + Sync>(rt: &R, alloc: Global) -> Result<bool, Memory> {
    let job = tree_job(alloc)?;
    let mut all = true;
    for _ in 0..200 {
        all = all && does_the_same(rt, alloc, &job, 8, STEPS as usize, STEPS as usize)?;
    }
    Ok(all)
}

#[test]
fn each_of_many_runs_ends_every_step_once(rt: HostRuntime) -> Result<(), Memory> {
    assert!(&rt; trees_are_the_same(&rt, rt.alloc())?);
    Ok(())
}
