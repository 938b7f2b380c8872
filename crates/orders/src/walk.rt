//! A walk from one linear extension to another: bubble sort by the places that nodes have in the other one. Neighbours that
//! stand the other way round there are free, so each exchange leaves a linear extension. That all are joined so is why it is
//! enough to ask about one exchange.
ghost use Rattle.std.specs.Prelude.{◌≡◌, ◌+◌, length, IfOk};
ghost use Rattle.fs_semantics.specs.Orders.{IsLinearExtension};
ghost use Rattle.orders.specs.Relation.{Comes};
ghost use Rattle.orders.specs.Exchanges.{IsWalk, count_turned};

use crate::order::Order;
use crate::places::{first_turned, places};
use rh_base::{NoMemory, Seq};

impl Order {
    /// Linear extensions from one to another, each the one before it with two neighbouring free nodes exchanged.
    pub fn walk(&self, from: &[u32], to: &[u32]) -> Result<Seq<Seq<u32>>, NoMemory>
        requires from { IsLinearExtension self.now.count (Comes self.now) from.now }
        requires to { IsLinearExtension self.now.count (Comes self.now) to.now }
        ensures walk { IfOk result (λ orders. IsWalk self.now.count (Comes self.now) from.now orders to.now) }
        ensures length { IfOk result (λ orders. length orders ≡ count_turned from.now to.now + 1) }
    {
        let alloc = self.alloc();
        let places = places(alloc, self.count(), to)?;
        let mut order = Vec::from_slice(alloc, from)?;
        let mut orders = Seq::new(alloc);
        orders.push(Seq::from_vec(Vec::from_slice(alloc, from)?))?;
        while let Some(k) = first_turned(order.as_slice(), places.as_slice()) {
            order.as_mut_slice().swap(k, k + 1);
            orders.push(Seq::from_vec(Vec::from_slice(alloc, order.as_slice())?))?;
        }
        Ok(orders)
    }
}
