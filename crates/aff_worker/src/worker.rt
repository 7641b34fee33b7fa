//! A worker before its work and behind it.
use aff_claim::Pass;
use aff_extent::ExtentReader;
use aff_order::Order;
use aff_outside::Device;

/// What a worker works with: its pass, its device, the suggestions that it is given, and the reader that has its buffer.
#[derive(Drop)]
pub struct Worker {
    pub pass: Pass,
    pub device: Box<dyn Device>,
    pub order: Order,
    pub reader: ExtentReader,
}

/// What a worker hands back. `stopped` says that a put answered that the folder failed, then or before, and `memory` that memory
/// was refused to it or to a put. A claim that it leaves with one of them is the sweep's.
#[derive(Drop)]
pub struct WorkEnd {
    pub device: Box<dyn Device>,
    pub pass: Pass,
    pub stopped: bool,
    pub memory: bool,
}
