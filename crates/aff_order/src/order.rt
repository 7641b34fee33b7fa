//! The order in which a worker is given the extents.
ghost use Rattle.std.specs.Prelude.{◌≡◌, ◌<◌, IfOk, IfSome, length, replicate, slice_get};
ghost use Rattle.aff_order.specs.Order.{IsOrder};

use aff_model::Memory;
use std::alloc::{AllocError, Global};
use std::marker::Model;

/// The suggestions for one worker: a list that has the number of each extent of a plan once.
#[derive(Drop)]
pub struct Order {
    extents: Vec<u32>,
}

impl Model for Order {
    ghost use Rattle.std.specs.Prelude.{ℕ, List};
    ghost use Rattle.aff_order.specs.Order.{IsOrder};

    ghost Value = { List ℕ };

    ghost view = { λ order. order.extents.items };

    ghost invariant = { λ order. IsOrder order.extents.items };
}

/// An order for each worker. Each has the whole list.
pub fn orders(alloc: Global, order: &[u32], workers: u32) -> Result<Vec<Order>, Memory>
    requires { IsOrder order.now }
    ensures { IfOk result (λ orders. orders.items ≡ replicate workers order.now) }
{
    copies(alloc, order, workers).map_err(|_| Memory)
}

fn copies(alloc: Global, order: &[u32], count: u32) -> Result<Vec<Order>, AllocError>
    requires { IsOrder order.now }
    ensures { IfOk result (λ orders. orders.items ≡ replicate count order.now) }
{
    let mut orders = Vec::with_capacity(alloc, count as usize)?;
    for _ in 0..count {
        let extents = order.to_vec(alloc)?;
        orders.push(Order { extents })?;
    }
    Ok(orders)
}

impl Order {
    /// The extent at a place of the order, from 0; None behind its end.
    pub fn suggest(&mut self, turn: u64) -> Option<u32>
        ensures suggestion { result ≡ slice_get self.old turn }
        ensures planned { IfSome result (λ extent. extent < length self.old) }
        ensures same { self.new ≡ self.old }
    {
        self.extents.get(turn as usize).copied()
    }
}
