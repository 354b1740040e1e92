use item_types::{Memory, Text};
use operators::{Added, Operand, is_too_long, join, len, less, plus, same_plain, truth};

#[test]
fn each_operation_has_its_worked_answer(rt: HostRuntime) -> Result<(), Memory> {
    let alloc = rt.alloc();
    let last = &Operand::Long(i64::MAX);
    let sum = plus(alloc, last, &Operand::Long(1))?;
    assert!(rt; matches!(sum, Added::Long(i64::MIN)));
    let Added::Str(text) = plus(alloc, &Operand::Str("a"), &Operand::Str("ö"))? else {
        assert!(rt; false);
        return Ok(());
    };
    assert_eq!(rt; text.as_str(), "aö");
    let Added::Str(text) = join(alloc, "", "b")? else {
        assert!(rt; false);
        return Ok(());
    };
    assert_eq!(rt; text.as_str(), "b");
    assert!(rt; matches!(plus(alloc, last, &Operand::Null)?, Added::WrongKind));
    assert!(rt; matches!(less(&Operand::Long(-1), &Operand::Long(0)), Some(true)));
    assert!(rt; less(&Operand::Null, last).is_none());
    assert!(rt; same_plain(&Operand::Str("a"), &Operand::Str("a")));
    assert!(rt; !same_plain(&Operand::List(0), &Operand::List(0)));
    assert!(rt; matches!(truth(&Operand::Bool(true)), Some(true)));
    assert!(rt; truth(&Operand::Null).is_none());
    assert!(rt; matches!(len(&Operand::Str("aö😀")), Some(3)));
    assert!(rt; matches!(len(&Operand::List(7)), Some(7)));
    assert!(rt; len(&Operand::Other).is_none());
    assert!(rt; !is_too_long(&Text::of(alloc, "a")?));
    Ok(())
}
