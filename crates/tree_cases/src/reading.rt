use item_types::{BeanDecl, ItemDecl, ItemKind, MethodSig, Names, RecorderDecl, Same, Seq, Text};
use lang_reader::{LangFault, parse_text};
use name_directory::{Directory, Register};
use std::alloc::Global;
use std::test::Fail;
use syntax_tree::Body;

fn one(alloc: Global, word: &str) -> Result<Seq<Text>, Fail> {
    let mut words = Seq::new(alloc);
    words.push(Text::of(alloc, word)?)?;
    Ok(words)
}

/// The item `T`, the bean `B` with the field `f`, and the recorder `R` with the field `f`, the
/// static `s` and the method `m` with one parameter.
fn names(alloc: Global) -> Result<Names, Fail> {
    let mut items = Seq::new(alloc);
    items.push(ItemDecl {
        name: Text::of(alloc, "T")?,
        kind: ItemKind::Simple,
    })?;
    let mut beans = Seq::new(alloc);
    beans.push(BeanDecl {
        name: Text::of(alloc, "B")?,
        fields: one(alloc, "f")?,
    })?;
    let mut methods = Seq::new(alloc);
    methods.push(MethodSig {
        name: Text::of(alloc, "m")?,
        params: one(alloc, "p")?,
    })?;
    let mut recorders = Seq::new(alloc);
    recorders.push(RecorderDecl {
        name: Text::of(alloc, "R")?,
        fields: one(alloc, "f")?,
        statics: one(alloc, "s")?,
        methods,
    })?;
    Ok(Names {
        items,
        beans,
        recorders,
    })
}

/// How many statements a text has, or its fault.
fn read(alloc: Global, step: bool, text: &str) -> Result<Result<usize, LangFault>, Fail> {
    let names = names(alloc)?;
    if text.len() > 65535 {
        return Ok(Err(LangFault::Memory));
    }
    let register = Register::new(alloc, &names)?;
    let directory = Directory::new(&names, &register);
    match parse_text(alloc, text, &directory, step) {
        Ok(stmts) => Ok(Ok(stmts.len())),
        Err(fault) => Ok(Err(fault)),
    }
}

#[test]
fn each_form_is_read(rt: HostRuntime) -> Result<(), Fail> {
    let steps = [
        "",
        "let x = 1;",
        "let x = call R.m(1);",
        "call R.m();",
        "produce T(get T + all T);",
        "for x in [1, -2, \"\\u{41}\\n\"] { fail x; }",
        "if !true && null == x.f.g { } else { fail len x < 3; }",
        "fail new B{f: (1), g: new B{}};",
        "fail \"\\u{10ffff}\";",
        "let\tx\r\n= x;",
    ];
    for text in steps {
        assert!(rt;
            matches!(read(rt.alloc(), true, text)?, Ok(0 | 1)),
            "{text}"
        );
    }
    let methods = [
        "print 1;",
        "return self.f;",
        "add(static.s, x);",
        "static.s = [];",
        "self.f = self;",
        "x.f = false;",
    ];
    for text in methods {
        assert_eq!(rt; read(rt.alloc(), false, text)?, Ok(1), "{text}");
    }
    Ok(())
}

#[test]
fn each_refusal_names_its_token(rt: HostRuntime) -> Result<(), Fail> {
    let rows = [
        ("let", LangFault::Syntax { at: 1 }),
        ("let x 1;", LangFault::Syntax { at: 2 }),
        ("produce T(1", LangFault::Syntax { at: 4 }),
        ("fail @;", LangFault::Token { at: 1 }),
        ("fail -0;", LangFault::Token { at: 1 }),
        ("fail & x;", LangFault::Token { at: 1 }),
        ("fail \"a", LangFault::Token { at: 1 }),
        ("fail \"\\u{d800}\";", LangFault::Token { at: 1 }),
        ("fail \"\\u{110000}\";", LangFault::Token { at: 1 }),
        ("fail 01;", LangFault::Syntax { at: 2 }),
        ("fail 9223372036854775808;", LangFault::Syntax { at: 2 }),
        ("fail a == b == c;", LangFault::Syntax { at: 4 }),
        ("fail [1, ];", LangFault::Syntax { at: 4 }),
        ("else { }", LangFault::Syntax { at: 0 }),
        ("print 1;", LangFault::Syntax { at: 0 }),
        ("fail self;", LangFault::Syntax { at: 1 }),
        ("if x { fail 1; ", LangFault::Syntax { at: 6 }),
    ];
    for (text, fault) in rows {
        assert_eq!(rt; read(rt.alloc(), true, text)?, Err(fault), "{text}");
    }
    Ok(())
}

/// `produce T(`, so many more opening brackets, and what follows.
fn nested(alloc: Global, depth: usize, rest: &str) -> Result<String, Fail> {
    let mut text = String::from_str(alloc, "produce T(")?;
    for _ in 0..depth {
        text.push_str("(")?;
    }
    text.push_str(rest)?;
    Ok(text)
}

/// So many closing brackets and a semicolon.
fn closing(alloc: Global, depth: usize) -> Result<String, Fail> {
    let mut text = String::from_str(alloc, "null")?;
    for _ in 0..depth {
        text.push_str(")")?;
    }
    text.push_str(";")?;
    Ok(text)
}

#[test]
fn sixty_four_open_forms_are_read_and_one_more_is_too_deep(rt: HostRuntime) -> Result<(), Fail> {
    let end = closing(rt.alloc(), 64)?;
    let full = nested(rt.alloc(), 63, end.as_str())?;
    assert_eq!(rt; read(rt.alloc(), true, full.as_str())?, Ok(1));
    let deep = nested(rt.alloc(), 64, "null")?;
    assert_eq!(rt;
        read(rt.alloc(), true, deep.as_str())?,
        Err(LangFault::TooDeep { at: 66 })
    );
    let closed = nested(rt.alloc(), 62, "! x (")?;
    assert_eq!(rt;
        read(rt.alloc(), true, closed.as_str())?,
        Err(LangFault::Syntax { at: 67 })
    );
    Ok(())
}

#[test]
fn blanks_between_tokens_make_no_difference(rt: HostRuntime) -> Result<(), Fail> {
    let names = names(rt.alloc())?;
    let register = Register::new(rt.alloc(), &names)?;
    let directory = Directory::new(&names, &register);
    let loose = parse_text(
        rt.alloc(),
        "let x=1+ 2;produce T ( [x,\"a\\n\"] ) ;",
        &directory,
        true,
    );
    let printed = parse_text(
        rt.alloc(),
        "let x = 1 + 2; produce T([x, \"a\\n\"]);",
        &directory,
        true,
    );
    match (loose, printed) {
        (Ok(a), Ok(b)) => assert!(rt; Body { stmts: a }.same(&Body { stmts: b })),
        _ => assert!(rt; false),
    }
    Ok(())
}

#[test]
fn a_long_chain_is_read_and_dropped(rt: HostRuntime) -> Result<(), Fail> {
    let mut text = String::from_str(rt.alloc(), "fail x")?;
    for _ in 0..20000 {
        text.push_str(".f")?;
    }
    text.push_str(";")?;
    assert_eq!(rt; read(rt.alloc(), true, text.as_str())?, Ok(1));
    Ok(())
}
