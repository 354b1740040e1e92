use item_types::{Memory, Seq, Text};
use name_index::{Index, names_of};

#[test]
fn a_name_is_found_at_its_first_place(rt: HostRuntime) -> Result<(), Memory> {
    let mut words = Seq::new(rt.alloc());
    for word in ["b", "a", "b", ""] {
        words.push(Text::of(rt.alloc(), word)?)?;
    }
    let mut names = names_of(rt.alloc(), words.as_slice())?;
    assert!(rt; matches!(names.place("b"), Some(0)));
    assert!(rt; matches!(names.place(""), Some(3)));
    assert!(rt; names.place("c").is_none());
    names.truncate(1);
    names.push("a")?;
    assert!(rt; matches!(names.place("a"), Some(1)));
    assert!(rt; names.place("").is_none());
    assert_eq!(rt; names.len(), 2);
    let one = Index::new(rt.alloc()).with("a")?;
    assert!(rt; matches!(one.place("a"), Some(0)));
    Ok(())
}
