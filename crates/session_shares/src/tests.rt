//! The law is a call that does nothing.
use super::*;

#[test]
fn the_law_is_a_call_that_does_nothing(_rt: HostRuntime) {
    law_shares();
}
