//! What may go into threads, and how many bytes a value takes. These tests start no thread.

use dsr_chain::Chain;
use dsr_client::Client;
use dsr_desk::Key;
use dsr_envelope::{Entry, Envelope, Letter, SharedAsk};
use dsr_replica::Replica;
use dsr_script::{Draft, Known};

/// Compiles only for what may be handed to another thread.
fn may_be_sent<T: Send>() {}

/// Compiles only for what two threads may share.
fn may_be_shared<T: Send + Sync>() {}

#[test]
fn actors_and_envelopes_go_into_threads(_rt: HostRuntime) {
    may_be_sent::<Key>();
    may_be_sent::<Client>();
    may_be_sent::<Replica>();
    may_be_sent::<Known>();
    may_be_sent::<Draft>();
    may_be_sent::<Entry>();
    may_be_shared::<Chain>();
    may_be_shared::<SharedAsk>();
    may_be_shared::<Envelope>();
    may_be_shared::<Letter>();
}

#[test]
fn an_entry_takes_16_bytes_and_an_envelope_48(rt: HostRuntime) {
    assert_eq!(rt; size_of::<Entry>(), 16);
    assert_eq!(rt; size_of::<Envelope>(), 48);
}
