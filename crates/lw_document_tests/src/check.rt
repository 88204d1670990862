// What the clauses do not say: that there is an answer where there is memory. The message is worked by hand.
use lw_check::too_large;
use std::test::Fail;

#[test]
fn a_text_that_is_too_long_is_told(rt: HostRuntime) -> Result<(), Fail> {
    let message = too_large(rt.alloc())?.message;
    assert_eq!(rt; message.text(), "Document is longer than 2097152 bytes.");
    Ok(())
}
