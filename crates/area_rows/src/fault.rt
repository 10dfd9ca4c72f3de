//! What is said if no memory is left for nets.

use net_extract::NetFault;

#[test]
fn fault_says_that_no_memory_is_left(rt: HostRuntime) {
    match format!(in rt.alloc(); "{}", NetFault::Memory) {
        Ok(said) => assert!(rt; said.as_str() == "no memory is left"),
        Err(_) => panic!(rt; "out of memory"),
    }
}
