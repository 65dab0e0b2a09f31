//! Entries of a class table.

use cs_classes::Classes;
use cs_word::Oop;

#[test]
fn an_entry_holds_the_class_that_was_put_there(rt: HostRuntime) {
    let mut classes = Classes::new(rt.alloc()).expect(&rt, "memory");
    assert_eq!(rt; classes.len(), 16384);
    assert_eq!(rt; classes.entry(32), None);
    classes.set_entry(0, Oop(65536));
    classes.set_entry(32, Oop(65552));
    classes.set_entry(16383, Oop(65568));
    classes.set_entry(32, Oop(65584));
    assert_eq!(rt; classes.entry(0), Some(Oop(65536)));
    assert_eq!(rt; classes.entry(31), None);
    assert_eq!(rt; classes.entry(32), Some(Oop(65584)));
    assert_eq!(rt; classes.entry(16383), Some(Oop(65568)));
}
