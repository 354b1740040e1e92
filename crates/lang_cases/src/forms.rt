// Each form of the language once, read and printed.

use crate::declared::{names, step};
use item_types::Memory;
use std::alloc::Global;
use std::test::Fail;
use step_lang::{LangFault, parse_body, parse_method, print_body, print_method};

/// Whether a text is read as a body that is printed so.
fn body_is_printed(alloc: Global, text: &str, printed: &str) -> Result<bool, Memory> {
    let names = names(alloc)?;
    let decl = step(alloc, &[0, 1])?;
    if text.len() > 65535 {
        return Ok(false);
    }
    match parse_body(alloc, text, &names, &decl) {
        Ok(body) => Ok(print_body(alloc, &body, &names)?.as_str() == printed),
        Err(LangFault::Memory) => Err(Memory),
        Err(_) => Ok(false),
    }
}

/// Whether a text is read as a method that is printed so.
fn method_is_printed(alloc: Global, text: &str, printed: &str) -> Result<bool, Memory> {
    let names = names(alloc)?;
    if text.len() > 65535 {
        return Ok(false);
    }
    match parse_method(alloc, text, &names, 0, 0) {
        Ok(method) => Ok(print_method(alloc, &method, &names, 0)?.as_str() == printed),
        Err(LangFault::Memory) => Err(Memory),
        Err(_) => Ok(false),
    }
}

const BODY: &str = "let n=null;let b=true==false ;let i=-7<3; let t=\"a\\n\"+\"\\u{62}\" ; \
    let l=[1,2 , 3];let u=get U;let w=all T;let o=new B{f:[]};let f=o.f.g;let c=len l; \
    let d=!b&&(b)&&c;let r=call R.m(o);call R.m( r );for x in w{if x.f{produce T(x);} \
    else{fail \"no\";}}if b{}produce T ( o );";

const PRINTED_BODY: &str = "let n = null; let b = true == false; let i = -7 < 3; \
    let t = \"a\\n\" + \"b\"; let l = [1, 2, 3]; let u = get U; let w = all T; \
    let o = new B { f: [] }; let f = o.f.g; let c = len l; let d = !b &&(b) && c; \
    let r = call R.m(o); call R.m(r); for x in w { if x.f { produce T(x); } \
    else { fail \"no\"; } } if b { } produce T(o);";

const METHOD: &str = "let a=self.f;let b=static.s;for x in p{add(a,x);}if b==null{static.s=[p];} \
    else{self.f=new B{f:1};}a.f=b+\"x\";print len a;return!p;fail\"end\";";

const PRINTED_METHOD: &str = "let a = self.f; let b = static.s; for x in p { add(a, x); } \
    if b == null { static.s = [p]; } else { self.f = new B { f: 1 }; } a.f = b + \"x\"; \
    print len a; return !p; fail \"end\";";

#[test]
fn each_form_of_a_body_is_printed(rt: HostRuntime) -> Result<(), Fail> {
    assert!(rt; body_is_printed(rt.alloc(), BODY, PRINTED_BODY)?);
    assert!(rt; body_is_printed(rt.alloc(), PRINTED_BODY, PRINTED_BODY)?);
    Ok(())
}

#[test]
fn each_form_of_a_method_is_printed(rt: HostRuntime) -> Result<(), Fail> {
    assert!(rt; method_is_printed(rt.alloc(), METHOD, PRINTED_METHOD)?);
    assert!(rt; method_is_printed(rt.alloc(), PRINTED_METHOD, PRINTED_METHOD)?);
    Ok(())
}

/// Whether a name of 64 letters with a keyword directly behind it is read as with a space.
fn keyword_behind_a_long_name(alloc: Global) -> Result<bool, Memory> {
    let close = "for aaaaaaaaaaaaaaaaaaaaaaaaaaaaaaaaaaaaaaaaaaaaaaaaaaaaaaaaaaaaaaaain [] { }";
    let apart = "for aaaaaaaaaaaaaaaaaaaaaaaaaaaaaaaaaaaaaaaaaaaaaaaaaaaaaaaaaaaaaaaa in [] { }";
    body_is_printed(alloc, close, apart)
}

#[test]
fn a_keyword_is_read_directly_behind_a_long_name(rt: HostRuntime) -> Result<(), Fail> {
    assert!(rt; keyword_behind_a_long_name(rt.alloc())?);
    Ok(())
}
