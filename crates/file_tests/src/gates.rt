use edge_io::{Gate, OpenGate, Point};
use std::sync::atomic::{AtomicU64, Ordering};
use std::thread;
use std::thread::Threads;

// Holds nobody, and adds up the ports of the batches that passed.
#[derive(Drop)]
struct PortSum {
    ports: AtomicU64,
}

impl Gate for PortSum {
    fn pass(&self, point: Point) {
        if let Point::Batch { port } = point {
            self.ports.fetch_add(u64::from(port), Ordering::SeqCst);
        }
    }
}

// Passes the gate before a batch of this port, and goes on.
fn pass_batch<G: Gate + Sync>(gate: &G, port: u16) -> u16 {
    gate.pass(Point::Batch { port });
    port
}

// Two threads share a gate. Each answers the port with which it went on.
fn pass_shared<G: Gate + Sync>(rt: &impl Threads, gate: &G) -> (u16, u16) {
    thread::join(rt, || pass_batch(gate, 1), || pass_batch(gate, 2))
}

#[test]
fn threads_pass_an_open_gate(rt: HostRuntime) {
    assert_eq!(rt; pass_shared(&rt, &OpenGate), (1, 2));
}

#[test]
fn a_gate_is_told_of_each_threads_point(rt: HostRuntime) {
    let gate = PortSum {
        ports: AtomicU64::new(0),
    };
    assert_eq!(rt; pass_shared(&rt, &gate), (1, 2));
    assert_eq!(rt; gate.ports.load(Ordering::SeqCst), 3);
}
