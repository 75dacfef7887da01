/// What is called round each turn of a worker. Workers and turns are numbered from 1. Both calls return.
pub trait Gate {
    fn before(&self, worker: u64, turn: u64);

    fn after(&self, worker: u64, turn: u64);
}

/// A gate that does nothing.
#[derive(Clone, Copy, Debug)]
pub struct FreeGate;

impl Gate for FreeGate {
    fn before(&self, _worker: u64, _turn: u64) {}

    fn after(&self, _worker: u64, _turn: u64) {}
}
