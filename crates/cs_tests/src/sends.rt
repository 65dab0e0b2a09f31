//! What a new sender has looked up.

use cs_send::Sender;
use std::test::Fail;

#[test]
fn a_new_sender_has_looked_up_nothing(rt: HostRuntime) -> Result<(), Fail> {
    let sender = Sender::new(rt.alloc())?;
    assert_eq!(rt; sender.full_finds(), 0);
    Ok(())
}
